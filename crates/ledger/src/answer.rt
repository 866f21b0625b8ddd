// What the calls answer where they succeed, and what they are refused for; specs/Answer gives the numbers and values of each case.
ghost use Rattle.std.specs.Prelude.{◌≡◌, Err};
ghost use Rattle.ledger_model.specs.Answer.{refusal};
ghost use Rattle.ledger.specs.Answer.{directive_refusal, commit_refusal, revoke_answer, advance_answer, issue_answer, brief_answer, decide_answer};

use drafts::OutOfRange;

// What questions 7 to 13 refuse, of a draft and of a card's directive alike.
#[derive(Clone, Copy, Debug, PartialEq, Eq)]
pub enum DirectiveRefusal {
    OutOfRange,
    NotInRegister,
    NoMinutes,
    NumberTaken,
    ListFull,
    BreaksBaseline,
    // the lowest number of an active directive that it conflicts with
    Conflicts(u16),
}

impl DirectiveRefusal {
    // The number of the question missed.
    pub fn question(self) -> u64
        ensures { result ≡ refusal (directive_refusal self) }
    {
        match self {
            DirectiveRefusal::OutOfRange => 7,
            DirectiveRefusal::NotInRegister => 8,
            DirectiveRefusal::NoMinutes => 9,
            DirectiveRefusal::NumberTaken => 10,
            DirectiveRefusal::ListFull => 11,
            DirectiveRefusal::BreaksBaseline => 12,
            DirectiveRefusal::Conflicts(_) => 13,
        }
    }
}

impl From<OutOfRange> for DirectiveRefusal {
    ghost use Rattle.ledger.specs.declared.answer.DirectiveRefusal.TheVariants as Refusal;

    ghost from_gives = { λ _ r. r ≡ Refusal.OutOfRange };

    fn from(_error: OutOfRange) -> DirectiveRefusal {
        DirectiveRefusal::OutOfRange
    }
}

#[derive(Clone, Copy, Debug, PartialEq, Eq)]
pub enum CommitRefusal {
    WrongLength,
    Directive(DirectiveRefusal),
    Redundant,
}

impl CommitRefusal {
    // The number of the question missed.
    pub fn question(self) -> u64
        ensures { result ≡ refusal (commit_refusal self) }
    {
        match self {
            CommitRefusal::WrongLength => 6,
            CommitRefusal::Directive(why) => why.question(),
            CommitRefusal::Redundant => 14,
        }
    }
}

impl From<DirectiveRefusal> for CommitRefusal {
    ghost use Rattle.ledger.specs.declared.answer.CommitRefusal.TheVariants as Refusal;

    ghost from_gives = { λ why r. r ≡ Refusal.Directive why };

    fn from(why: DirectiveRefusal) -> CommitRefusal {
        CommitRefusal::Directive(why)
    }
}

// No active directive has the number.
#[derive(Clone, Copy, Debug, PartialEq, Eq)]
pub struct NotActive;

impl NotActive {
    // The number of the question missed.
    pub fn question(self) -> u64
        ensures { result ≡ refusal (revoke_answer (Err self)) }
    {
        15
    }
}

// How many directives and tokens an advance dropped.
#[derive(Clone, Copy, Debug, PartialEq, Eq)]
pub struct Dropped {
    pub directives: usize,
    pub tokens: usize,
}

// The minute is before the clock.
#[derive(Clone, Copy, Debug, PartialEq, Eq)]
pub struct BeforeClock;

impl BeforeClock {
    // The number of the question missed.
    pub fn question(self) -> u64
        ensures { result ≡ refusal (advance_answer (Err self)) }
    {
        16
    }
}

#[derive(Clone, Copy, Debug, PartialEq, Eq)]
pub enum IssueRefusal {
    NoState,
    WrongMinutes,
    NumberTaken,
    TokensFull,
}

impl IssueRefusal {
    // The number of the question missed.
    pub fn question(self) -> u64
        ensures { result ≡ refusal (issue_answer (Err self)) }
    {
        match self {
            IssueRefusal::NoState => 18,
            IssueRefusal::WrongMinutes => 19,
            IssueRefusal::NumberTaken => 20,
            IssueRefusal::TokensFull => 21,
        }
    }
}

// No live token has the number and the person.
#[derive(Clone, Copy, Debug, PartialEq, Eq)]
pub struct NoToken;

impl NoToken {
    // The number of the question missed.
    pub fn question(self) -> u64
        ensures { result ≡ refusal (brief_answer (Err self)) }
    {
        22
    }
}

// One case a basis.
#[derive(Clone, Copy, Debug, PartialEq, Eq)]
pub enum Decision {
    Patient,
    Author,
    Directive { permit: bool, number: u16 },
    Default { permit: bool },
}

// Something of the query is not in the register, or out of range.
#[derive(Clone, Copy, Debug, PartialEq, Eq)]
pub struct NotInRegister;

impl NotInRegister {
    // The number of the question missed.
    pub fn question(self) -> u64
        ensures { result ≡ refusal (decide_answer (Err self)) }
    {
        17
    }
}
