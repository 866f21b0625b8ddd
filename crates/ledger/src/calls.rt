// The ledger's calls but commit and decide: each gives its answer, and changes the ledger where it succeeds.
ghost use Rattle.std.specs.Prelude.{◌≡◌};
ghost use Rattle.ledger.specs.Promises.{after, Revokes, Advances, Issues, Briefs};

use crate::Ledger;
use crate::answer::{BeforeClock, Dropped, IssueRefusal, NoToken, NotActive};
use emergency::{Brief, Token};

// The longest that a token can live, in minutes.
const LONGEST: u32 = 240;

impl Ledger {
    // Takes the directive of that number out of the active list; the rest keep their order.
    pub fn revoke(&mut self, number: u16) -> Result<(), NotActive>
        ensures { Revokes self.old number (after result self.new) }
    {
        if !self.active.has_number(number) {
            return Err(NotActive);
        }
        self.active.retain(|d| d.number != number);
        Ok(())
    }

    // Sets the clock, and drops the directives and the tokens that have ended.
    pub fn advance(&mut self, minute: u32) -> Result<Dropped, BeforeClock>
        ensures { Advances self.old minute (after result self.new) }
    {
        if minute < self.clock {
            return Err(BeforeClock);
        }
        let directives = self.active.len();
        let tokens = self.tokens.len();
        self.clock = minute;
        self.active.retain(|d| minute < d.until);
        self.tokens.retain_live(minute);
        Ok(Dropped {
            directives: directives - self.active.len(),
            tokens: tokens - self.tokens.len(),
        })
    }

    // Puts a token last.
    pub fn issue(
        &mut self,
        number: u16,
        person: u16,
        states: u8,
        minutes: u32,
    ) -> Result<(), IssueRefusal>
        ensures { Issues self.old number person states minutes (after result self.new) }
    {
        if states == 0 {
            return Err(IssueRefusal::NoState);
        }
        if minutes < 1 || LONGEST < minutes || u32::MAX - minutes < self.clock {
            return Err(IssueRefusal::WrongMinutes);
        }
        if self.tokens.has_number(number) {
            return Err(IssueRefusal::NumberTaken);
        }
        if emergency::PLACES <= self.tokens.len() {
            return Err(IssueRefusal::TokensFull);
        }
        self.tokens.push(Token {
            number,
            person,
            states,
            until: self.clock + minutes,
        });
        Ok(())
    }

    // The brief of the token of that number for that person.
    pub fn brief(&self, number: u16, person: u16) -> Result<Brief, NoToken>
        ensures { Briefs self.now number person result }
    {
        match self.tokens.states_of(number, person) {
            Some(states) => Ok(emergency::disclosure::brief_over(&self.register, states)),
            None => Err(NoToken),
        }
    }
}
