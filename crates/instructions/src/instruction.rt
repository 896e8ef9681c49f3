//! What a line may ask for.
use terms::calls::Call;

/// To start the book on a day, or a call to it.
#[derive(Clone, Copy)]
pub enum Instruction {
    Start { day: u64 },
    Call(Call),
}
