// libnewelsage, as C, Rust and Python link it (include/newelsage.h): each function of `newelsage` under its name. A crate of its own, since
// no crate can use a static library.
#![tactic(auto)]

ghost use Rattle.std.specs.Prelude.{◌≡◌, ◌%◌};
ghost use Rattle.ledger_stored.specs.Stored.{the_stamp, the_size};
ghost use Rattle.newelsage.specs.Library.{Empties, Reads, Calls, Asks};

use ledger_stored::StoredLedger;

// How many bytes a ledger has.
#[unsafe(no_mangle)]
pub extern "C" fn newelsage_size() -> usize
    ensures { result ≡ the_size }
{
    newelsage::newelsage_size()
}

// The version of these bytes.
#[unsafe(no_mangle)]
pub extern "C" fn newelsage_version() -> u64
    ensures { result ≡ the_stamp % 65536 }
{
    newelsage::newelsage_version()
}

// Makes the empty ledger.
#[unsafe(no_mangle)]
pub extern "C" fn newelsage_empty(ledger: &mut StoredLedger, size: usize) -> u64
    ensures { Empties ledger.old size result ledger.new }
{
    newelsage::newelsage_empty(ledger, size)
}

// Reads a card into the ledger.
#[unsafe(no_mangle)]
pub extern "C" fn newelsage_read(
    ledger: &mut StoredLedger,
    size: usize,
    card: &[u8],
    answer: &mut [u64; 8],
) -> u64
    ensures { Reads ledger.old size card.now result ledger.new answer.new }
{
    newelsage::newelsage_read(ledger, size, card, answer)
}

// A call that can change the ledger.
#[unsafe(no_mangle)]
pub extern "C" fn newelsage_call(
    ledger: &mut StoredLedger,
    size: usize,
    tag: u8,
    value: &[u8],
    answer: &mut [u64; 8],
) -> u64
    ensures { Calls ledger.old size tag value.now result ledger.new answer.new }
{
    newelsage::newelsage_call(ledger, size, tag, value, answer)
}

// A call that changes nothing of the ledger; a write is lent the start of the buffer.
#[unsafe(no_mangle)]
pub extern "C" fn newelsage_ask(
    ledger: &StoredLedger,
    size: usize,
    tag: u8,
    value: &[u8],
    lent: &mut [u8],
    answer: &mut [u64; 8],
) -> u64
    ensures { Asks ledger.now size tag value.now lent.old result lent.new answer.new }
{
    newelsage::newelsage_ask(ledger, size, tag, value, lent, answer)
}
