// The ledger of one patient: register, clock, active directives and live emergency tokens.
#![tactic(auto)]

ghost use Rattle.std.specs.Prelude.{◌≡◌};
ghost use Rattle.ledger.specs.State.{empty_ledger, ledger_from};

use active::ActiveList;
use emergency::TokenList;
use register::Register;

pub mod answer;
pub mod calls;
pub mod commit;
pub mod decision;
pub mod enrolment;

// The fields are private: a ledger comes from `empty`, from reading a card, from a call, or back from where it was stored (`from_parts`).
// Its invariant stands in the promises of the calls and in no ghost field, since one that was stored by no call need not keep it.
#[derive(Clone, Copy)]
pub struct Ledger {
    patient: u16,
    clock: u32,
    register: Register,
    active: ActiveList,
    tokens: TokenList,
}

impl Ledger {
    // Patient 0, clock 0 and nothing else.
    #[tactic(auto, unfolding(crate::specs::State::empty_ledger))]
    pub fn empty() -> Ledger
        ensures { result ≡ empty_ledger }
    {
        Ledger {
            patient: 0,
            clock: 0,
            register: Register::empty(),
            active: ActiveList::empty(),
            tokens: TokenList::empty(),
        }
    }

    // A ledger from its parts, for one that was stored. Nothing is tested: of parts that no ledger of document 01 has, the answers are free.
    pub fn from_parts(
        patient: u16,
        clock: u32,
        register: Register,
        active: ActiveList,
        tokens: TokenList,
    ) -> Ledger
        ensures { result ≡ ledger_from patient clock register active tokens }
    {
        Ledger {
            patient,
            clock,
            register,
            active,
            tokens,
        }
    }

    pub fn patient(&self) -> u16
        ensures { result ≡ self.now.patient }
    {
        self.patient
    }

    pub fn clock(&self) -> u32
        ensures { result ≡ self.now.clock }
    {
        self.clock
    }

    pub fn register(&self) -> &Register
        ensures { result.now ≡ self.now.register }
    {
        &self.register
    }

    pub fn active(&self) -> &ActiveList
        ensures { result.now ≡ self.now.active }
    {
        &self.active
    }

    pub fn tokens(&self) -> &TokenList
        ensures { result.now ≡ self.now.tokens }
    {
        &self.tokens
    }
}
