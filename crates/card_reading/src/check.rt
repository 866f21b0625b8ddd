// The line that tells of a card: refusal (0 for none), records and active directives.
ghost use Rattle.std.specs.Prelude.{◌≡◌, [], ◌∷◌, length};
ghost use Rattle.ledger.specs.State.{view};
ghost use Rattle.ledger_model.specs.Answer.{refusal};
ghost use Rattle.card.specs.Answer.{read_answer};
ghost use Rattle.card.specs.Reading.{card_line};
ghost use Rattle.card.specs.Promises.{read_result};

use card::ReadRefusal;
use ledger::Ledger;

#[derive(Clone, Copy)]
pub struct CardLine {
    // the number that is printed, which each who prints it would make of a `ReadRefusal`
    pub refusal: u64,
    pub records: usize,
    pub directives: usize,
}

impl CardLine {
    // The three as they are printed. `as`: std has no `From` from `usize` to `u64`.
    pub fn numbers(self) -> [u64; 3]
        ensures { result ≡ self.refusal ∷ self.records ∷ self.directives ∷ [] }
    {
        [self.refusal, self.records as u64, self.directives as u64]
    }

    // The line of what reading a card gives.
    pub fn of(read: &Result<Ledger, ReadRefusal>) -> CardLine
        ensures refusal_value { result.refusal ≡ refusal (read_answer (read_result read.now).answer) }
        ensures records_value { result.records ≡ length (view (read_result read.now).ledger).register.records }
        ensures directives_value { result.directives ≡ length (view (read_result read.now).ledger).active }
    {
        match read {
            Ok(ledger) => CardLine {
                refusal: 0,
                records: ledger.register().records().len(),
                directives: ledger.active().len(),
            },
            Err(why) => CardLine {
                refusal: why.question(),
                records: 0,
                directives: 0,
            },
        }
    }
}

// The line of the card with these bytes.
pub fn check(card: &[u8]) -> CardLine
    ensures { result.refusal ∷ result.records ∷ result.directives ∷ [] ≡ card_line card.now }
{
    CardLine::of(&crate::read::read(card))
}
