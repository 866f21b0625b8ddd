// The consent card: why reading or writing one is refused, and the bytes of its head.
#![tactic(auto)]

ghost use Rattle.std.specs.Prelude.{◌≡◌};
ghost use Rattle.ledger_model.specs.Answer.{refusal};
ghost use Rattle.card.specs.Answer.{read_refusal, write_refusal};

use form::NoTag;
use ledger::answer::DirectiveRefusal;
use ledger::enrolment;

pub mod form;

#[derive(Clone, Copy, Debug, PartialEq, Eq)]
pub enum ReadRefusal {
    // a field does not stand whole in the card
    NotWhole,
    // a field has not its place and length
    Misplaced,
    TooManyRecords,
    OutOfRange,
    Directive(DirectiveRefusal),
    // at the card's end head, roles or records are missing
    Incomplete,
}

impl ReadRefusal {
    // The number of the question missed.
    pub fn question(self) -> u64
        ensures { result ≡ refusal (read_refusal self) }
    {
        match self {
            ReadRefusal::NotWhole => 1,
            ReadRefusal::Misplaced => 2,
            ReadRefusal::TooManyRecords => 3,
            ReadRefusal::OutOfRange => 4,
            ReadRefusal::Directive(why) => why.question(),
            ReadRefusal::Incomplete => 5,
        }
    }
}

impl From<NoTag> for ReadRefusal {
    ghost use Rattle.card.specs.declared.ReadRefusal.TheVariants as Refusal;

    ghost from_gives = { λ _ r. r ≡ Refusal.Misplaced };

    fn from(_error: NoTag) -> ReadRefusal {
        ReadRefusal::Misplaced
    }
}

impl From<enrolment::OutOfRange> for ReadRefusal {
    ghost use Rattle.card.specs.declared.ReadRefusal.TheVariants as Refusal;

    ghost from_gives = { λ _ r. r ≡ Refusal.OutOfRange };

    fn from(_error: enrolment::OutOfRange) -> ReadRefusal {
        ReadRefusal::OutOfRange
    }
}

impl From<DirectiveRefusal> for ReadRefusal {
    ghost use Rattle.card.specs.declared.ReadRefusal.TheVariants as Refusal;

    ghost from_gives = { λ why r. r ≡ Refusal.Directive why };

    fn from(why: DirectiveRefusal) -> ReadRefusal {
        ReadRefusal::Directive(why)
    }
}

#[derive(Clone, Copy, Debug, PartialEq, Eq)]
pub enum WriteRefusal {
    NoRecord,
    BufferTooShort,
}

impl WriteRefusal {
    // The number of the question missed.
    pub fn question(self) -> u64
        ensures { result ≡ refusal (write_refusal self) }
    {
        match self {
            WriteRefusal::NoRecord => 23,
            WriteRefusal::BufferTooShort => 24,
        }
    }
}
