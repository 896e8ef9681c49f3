//! The instructions of a day: what a line asks for or what is wrong with it, and the texts of the answers.
#![tactic(auto)]

pub mod answers;
pub mod faults;
pub mod instruction;
pub mod parse;
pub mod theorems;

pub use words::{kinds, lines, reader, verbs};

#[cfg(test)]
mod tests {
    use crate::answers::{Reply, reply_text};
    use crate::parse::parse_line;
    use std::test::Fail;
    use terms::calls::{Answer, Refusal};

    // The number and the place of a line's fault: `None` if it has none.
    fn fault_of(line: &[u8]) -> Option<(u64, usize)> {
        match parse_line(line) {
            Ok(_) => None,
            Err(e) => Some((e.fault.number(), e.place)),
        }
    }

    #[test]
    fn no_verb(rt: HostRuntime) {
        assert!(rt; fault_of(b"") == Some((1, 1)));
        assert!(rt; fault_of(b" start 2024-03-01") == Some((1, 1)));
        assert!(rt; fault_of(b"Start 2024-03-01") == Some((1, 1)));
        assert!(rt; fault_of(b"foo") == Some((1, 1)));
        assert!(rt; fault_of(b"1") == Some((1, 1)));
        assert!(rt; fault_of(b"-") == Some((1, 1)));
        assert!(rt; fault_of(b"one") == Some((1, 1)));
        assert!(rt; fault_of(b"2024-03-01") == Some((1, 1)));
    }

    #[test]
    fn words_of_start(rt: HostRuntime) {
        assert!(rt; fault_of(b"start") == Some((2, 2)));
        assert!(rt; fault_of(b"start -") == Some((4, 2)));
        assert!(rt; fault_of(b"start  2024-03-01") == Some((4, 2)));
        assert!(rt; fault_of(b"start 2024-03-01 ") == Some((3, 3)));
        assert!(rt; fault_of(b"start 2024-03-01 x") == Some((3, 3)));
        assert!(rt; fault_of(b"start 2000-02-29") == None);
    }

    #[test]
    fn dates(rt: HostRuntime) {
        assert!(rt; fault_of(b"start 2024-02-30") == Some((4, 2)));
        assert!(rt; fault_of(b"start 2023-02-29") == Some((4, 2)));
        assert!(rt; fault_of(b"start 1999-12-31") == Some((4, 2)));
        assert!(rt; fault_of(b"start 2050-01-01") == Some((4, 2)));
        assert!(rt; fault_of(b"start 2100-02-29") == Some((4, 2)));
        assert!(rt; fault_of(b"start 2024-3-01") == Some((4, 2)));
    }

    #[test]
    fn numbers(rt: HostRuntime) {
        assert!(rt; fault_of(b"deposit 00 0 1") == Some((4, 2)));
        assert!(rt; fault_of(b"deposit 0 01 1") == Some((4, 3)));
        assert!(rt; fault_of(b"withdraw 0 0 12345678901234") == Some((4, 4)));
        assert!(rt; fault_of(b"withdraw 0 0 9999999999999") == None);
        assert!(rt; fault_of(b"trade 0 1 2 +1") == Some((4, 5)));
        assert!(rt; fault_of(b"trade 0 1 2 3\r") == Some((4, 5)));
        assert!(rt; fault_of(b"trade 0 x 2") == Some((4, 3)));
        assert!(rt; fault_of(b"trade 0 1 2") == Some((2, 5)));
    }

    #[test]
    fn operands(rt: HostRuntime) {
        assert!(rt; fault_of(b"admit 01") == Some((4, 2)));
        assert!(rt; fault_of(b"stop 1 2") == Some((3, 3)));
        assert!(rt; fault_of(b"price 1") == Some((2, 3)));
        assert!(rt; fault_of(b"pledge 0 one 1") == Some((4, 3)));
        assert!(rt; fault_of(b"unpledge 0 0 1") == None);
        assert!(rt; fault_of(b"suspend") == Some((2, 2)));
        assert!(rt; fault_of(b"noon ") == Some((3, 2)));
        assert!(rt; fault_of(b"noon") == None);
    }

    #[test]
    fn length_first(rt: HostRuntime) {
        let spaces = [b' '; 121];
        assert!(rt; fault_of(&spaces[0..120]) == Some((1, 1)));
        assert!(rt; fault_of(&spaces) == Some((5, 0)));
    }

    #[test]
    fn replies(rt: HostRuntime) -> Result<(), Fail> {
        let text = reply_text(rt.alloc(), 12, Reply::Refused(Refusal::TooFewShares))?;
        assert!(rt; text.as_str() == "12 no 10\n");
        Ok(())
    }

    #[test]
    fn reply_of_noon(rt: HostRuntime) -> Result<(), Fail> {
        let text = reply_text(rt.alloc(), 12, Reply::Answered(Answer::Suspensions(0)))?;
        assert!(rt; text.as_str() == "12 ok 0\n");
        Ok(())
    }
}
