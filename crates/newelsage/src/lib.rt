// libnewelsage: what C, Rust and Python call (include/newelsage.h). The caller owns the ledger's memory and lends it, with its size.
// Nothing is allocated and nothing is global.
#![tactic(auto)]

ghost use Rattle.std.specs.Prelude.{◌≡◌, ◌%◌};
ghost use Rattle.ledger_stored.specs.Stored.{the_stamp, the_size};
ghost use Rattle.newelsage.specs.Library.{Empties, Reads, Calls, Asks};

use ledger_stored::StoredLedger;

pub mod answer;
pub mod calls;

// The memory is shorter than a ledger.
const TOO_SHORT: u64 = 102;

// How many bytes a ledger has.
pub fn newelsage_size() -> usize
    ensures { result ≡ the_size }
{
    ledger_stored::SIZE
}

// The version of these bytes.
pub fn newelsage_version() -> u64
    ensures { result ≡ the_stamp % 65536 }
{
    ledger_stored::STAMP % 65536
}

// Makes the empty ledger.
#[tactic(auto, using(ledger::proofs::Beginning::empty_sound))]
pub fn newelsage_empty(ledger: &mut StoredLedger, size: usize) -> u64
    ensures { Empties ledger.old size result ledger.new }
{
    if size < ledger_stored::SIZE {
        return TOO_SHORT;
    }
    *ledger = calls::empty();
    0
}

// Reads a card into the ledger.
pub fn newelsage_read(
    ledger: &mut StoredLedger,
    size: usize,
    card: &[u8],
    answer: &mut [u64; 8],
) -> u64
    ensures { Reads ledger.old size card.now result ledger.new answer.new }
{
    if ledger_stored::SIZE <= size {
        calls::read(ledger, card, answer)
    } else {
        answer::refuse(answer, TOO_SHORT)
    }
}

// A call that can change the ledger.
pub fn newelsage_call(
    ledger: &mut StoredLedger,
    size: usize,
    tag: u8,
    value: &[u8],
    answer: &mut [u64; 8],
) -> u64
    ensures { Calls ledger.old size tag value.now result ledger.new answer.new }
{
    if ledger_stored::SIZE <= size {
        calls::call(ledger, tag, value, answer)
    } else {
        answer::refuse(answer, TOO_SHORT)
    }
}

// A call that changes nothing of the ledger; a write is lent the start of the buffer.
pub fn newelsage_ask(
    ledger: &StoredLedger,
    size: usize,
    tag: u8,
    value: &[u8],
    lent: &mut [u8],
    answer: &mut [u64; 8],
) -> u64
    ensures { Asks ledger.now size tag value.now lent.old result lent.new answer.new }
{
    if ledger_stored::SIZE <= size {
        calls::ask(ledger, tag, value, lent, answer)
    } else {
        answer::refuse(answer, TOO_SHORT)
    }
}
