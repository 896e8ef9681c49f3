//! A book, and the calls that may be put to it.
ghost use Rattle.std.specs.Prelude.{◌≡◌};
ghost use Rattle.definitions.specs.Sound.{Upheld};
ghost use Rattle.std.proofs.Props.{props};
ghost use Rattle.std.specs.Result.{result_map_both};
ghost use Rattle.terms.specs.declared.calls.Answer.TheVariants.{Done};
ghost use Rattle.definitions.specs.Runs.{answer_to, step as step_by};
ghost use Rattle.definitions.specs.Standings.{suspensions};
ghost use Rattle.definitions.specs.States.{opening};
ghost use Rattle.terms.specs.declared.calls.Call.TheVariants as calls;

use crate::fitness::may_open;
use calendar::Calendar;
use register::Register;
use terms::calls::{Answer, Call, Refusal};
use terms::ledger::{Ledger, Loans, Requests};
use terms::records::{Agent, Security};

// The answer of a call that answers nothing but that it is done.
fn done(res: Result<(), Refusal>) -> Result<Answer, Refusal>
    ensures { result ≡ result_map_both (λ _. Done) (λ refusal. refusal) res }
{
    res.map(|()| Answer::Done)
}

/// A book owns its register and its calendar, so nothing else can change them while it stands.
#[derive(Drop)]
pub struct Book<R: Register, C: Calendar> {
    register: R,
    calendar: C,
    ledger: Ledger,
    // The register and the ledger stand together.
    pub ghost upheld: { Upheld (R.holdings register) ledger } by { Prim.hlevel props },
}

impl<R: Register, C: Calendar> Book<R, C> {
    ghost use Rattle.book.specs.Meaning.{Called, state_of};

    /// A book on a register, a calendar and a day. Where the register is unfit or the day too late, every call is refused.
    pub fn open(register: R, calendar: C, day: u64) -> Book<R, C>
        ensures state { state_of result ≡ opening (R.holdings register) day }
        ensures register { result.register ≡ register }
        ensures calendar { result.calendar ≡ calendar }
    {
        let opened = may_open(&register, day);
        let ledger = Ledger {
            opened,
            today: day,
            securities: [Security::default(); 16],
            agents: [Agent::default(); 16],
            requests: Requests {
                lending: [None; 64],
                borrowing: [None; 64],
                updates: 0,
            },
            loans: Loans {
                standing: [None; 128],
                references: 0,
            },
        };
        Book {
            register,
            calendar,
            ledger,
        }
    }

    /// Makes a security eligible.
    pub fn admit(&mut self, security: u64) -> Result<(), Refusal>
        ensures { Called (calls.Admit security) tt self.old self.new result }
    {
        listing::admit::admit(&mut self.ledger, &self.register, security)
    }

    /// Ends a security's eligibility, and takes out its requests.
    pub fn stop(&mut self, security: u64) -> Result<(), Refusal>
        ensures { Called (calls.Stop security) tt self.old self.new result }
    {
        listing::stop::stop(&mut self.ledger, &mut self.register, security)
    }

    /// Posts a price of a security, in force from the next close.
    pub fn price(&mut self, security: u64, cents: u64) -> Result<(), Refusal>
        ensures { Called (calls.Price security cents) tt self.old self.new result }
    {
        listing::price::price(&mut self.ledger, &self.register, security, cents)
    }

    /// Brings shares onto a line.
    pub fn deposit(&mut self, account: u64, security: u64, quantity: u64) -> Result<(), Refusal>
        ensures { Called (calls.Deposit account security quantity) tt self.old self.new result }
    {
        custody::deposit::deposit(
            &self.ledger,
            &mut self.register,
            account,
            security,
            quantity,
        )
    }

    /// Takes free shares from a line.
    pub fn withdraw(&mut self, account: u64, security: u64, quantity: u64) -> Result<(), Refusal>
        ensures { Called (calls.Withdraw account security quantity) tt self.old self.new result }
    {
        custody::withdraw::withdraw(
            &self.ledger,
            &mut self.register,
            account,
            security,
            quantity,
        )
    }

    /// Passes free shares of a security from one account to another.
    pub fn trade(
        &mut self,
        giver: u64,
        receiver: u64,
        security: u64,
        quantity: u64,
    ) -> Result<(), Refusal>
        ensures { Called (calls.Trade giver receiver security quantity) tt self.old self.new result }
    {
        custody::trade::trade(
            &self.ledger,
            &mut self.register,
            giver,
            receiver,
            security,
            quantity,
        )
    }

    /// Adds to an agent's collateral of a kind.
    pub fn pledge(&mut self, agent: u64, kind: u64, cents: u64) -> Result<(), Refusal>
        ensures { Called (calls.Pledge agent kind cents) tt self.old self.new result }
    {
        agents::pledge::pledge(&mut self.ledger, agent, kind, cents)
    }

    /// Takes from an agent's collateral of a kind.
    pub fn unpledge(&mut self, agent: u64, kind: u64, cents: u64) -> Result<(), Refusal>
        ensures { Called (calls.Unpledge agent kind cents) tt self.old self.new result }
    {
        agents::unpledge::unpledge(&mut self.ledger, agent, kind, cents)
    }

    /// Suspends an agent.
    pub fn suspend(&mut self, agent: u64) -> Result<(), Refusal>
        ensures { Called (calls.Suspend agent) tt self.old self.new result }
    {
        agents::suspend::suspend(&mut self.ledger, agent)
    }

    /// Decides on the agents that were notified, and answers how many it suspended.
    pub fn noon(&mut self) -> Result<u64, Refusal>
        ensures { Called calls.Noon (suspensions (state_of self.old).kept) self.old self.new result }
    {
        agents::noon::noon(&mut self.ledger)
    }

    /// Puts any call to the book.
    pub fn execute(&mut self, call: Call) -> Result<Answer, Refusal>
        ensures says { result ≡ answer_to (state_of self.old) call }
        ensures leaves { state_of self.new ≡ (step_by (state_of self.old) call).leaves }
        ensures calendar { self.new.calendar ≡ self.old.calendar }
        ensures frame { R.frame self.new.register ≡ R.frame self.old.register }
    {
        match call {
            Call::Admit { security } => done(self.admit(security)),
            Call::Stop { security } => done(self.stop(security)),
            Call::Price { security, cents } => done(self.price(security, cents)),
            Call::Deposit {
                account,
                security,
                quantity,
            } => done(self.deposit(account, security, quantity)),
            Call::Withdraw {
                account,
                security,
                quantity,
            } => done(self.withdraw(account, security, quantity)),
            Call::Trade {
                giver,
                receiver,
                security,
                quantity,
            } => done(self.trade(giver, receiver, security, quantity)),
            Call::Pledge { agent, kind, cents } => done(self.pledge(agent, kind, cents)),
            Call::Unpledge { agent, kind, cents } => done(self.unpledge(agent, kind, cents)),
            Call::Suspend { agent } => done(self.suspend(agent)),
            Call::Noon => self.noon().map(Answer::Suspensions),
        }
    }
}
