// The library's calls on a stored ledger. Tags and statuses are numbers, as C gives and takes them.
ghost use Rattle.std.specs.Prelude.{ℕ, ◌≡◌, List};
ghost use Rattle.ledger.specs.State.{empty_ledger};
ghost use Rattle.ledger_stored.specs.Stored.{the_stamp, ledger_of, stored_of};
ghost use Rattle.replay_entries.specs.Entries.{decide_entry, Answers};
ghost use Rattle.newelsage.specs.Library.{ReadIn, CalledIn, AskedIn};

use crate::answer::{self, MALFORMED};
use ledger::Ledger;
use ledger_stored::StoredLedger;
use replay_entries::entry::{self, EntryAnswer, Malformed};
use replay_entries::line;

// The memory does not begin as a ledger of this version does.
const NOT_A_LEDGER: u64 = 103;

pub fn empty() -> StoredLedger
    ensures { result ≡ stored_of empty_ledger }
{
    StoredLedger::from(&Ledger::empty())
}

// A refused card leaves the empty ledger.
pub fn read(stored: &mut StoredLedger, card: &[u8], answer: &mut [u64; 8]) -> u64
    ensures { ReadIn card.now result stored.new answer.new }
{
    let read = card_reading::read::read(card);
    *stored = match &read {
        Ok(ledger) => StoredLedger::from(ledger),
        Err(_) => empty(),
    };
    answer::put_read(answer, &read)
}

pub fn call(stored: &mut StoredLedger, tag: u8, v: &[u8], answer: &mut [u64; 8]) -> u64
    ensures { CalledIn stored.old tag v.now result stored.new answer.new }
{
    if ledger_stored::STAMP != stored.stamp {
        return answer::refuse(answer, NOT_A_LEDGER);
    }
    let mut ledger = Ledger::from(&*stored);
    let entry = entry::run_call(&mut ledger, tag, v);
    *stored = StoredLedger::from(&ledger);
    answer::put_line(answer, &line::line_of(entry))
}

// A decide, over the stored ledger as it is; `replay_entries` has the one over a ledger.
fn decide_entry(stored: &StoredLedger, v: &[u8]) -> Result<EntryAnswer, Malformed>
    ensures { (buffer : List ℕ) → Answers (ledger_of stored.now) (decide_entry v.now) buffer result buffer }
{
    entry::has_length(v, 7)?;
    Ok(EntryAnswer::Decide(stored.decide(entry::query_of(v))))
}

// A question to the ledger, which is brought back whole. Two tags are the library's own, 0x00 for the counts and 0x01 for the token at
// a place; the others are a replay's.
fn ask_ledger(
    stored: &StoredLedger,
    tag: u8,
    v: &[u8],
    lent: &mut [u8],
    answer: &mut [u64; 8],
) -> u64
    ensures { stored.now.stamp ≡ the_stamp → AskedIn stored.now tag v.now lent.old result lent.new answer.new }
{
    let ledger = Ledger::from(stored);
    match (tag, v) {
        (0x00, []) => answer::put_counts(answer, &ledger),
        (0x01, [place]) => answer::put_token(answer, &ledger, *place),
        (0x00 | 0x01, _) => answer::refuse(answer, MALFORMED),
        _ => {
            let entry = entry::run_query(&ledger, tag, v, lent);
            answer::put_line(answer, &line::line_of(entry))
        }
    }
}

// A question to the ledger. A decide does not go through `ask_ledger`, which clears room for a whole ledger.
pub fn ask(stored: &StoredLedger, tag: u8, v: &[u8], lent: &mut [u8], answer: &mut [u64; 8]) -> u64
    ensures { AskedIn stored.now tag v.now lent.old result lent.new answer.new }
{
    if stored.stamp != ledger_stored::STAMP {
        return answer::refuse(answer, NOT_A_LEDGER);
    }
    if tag == 0x14 {
        return answer::put_line(answer, &line::line_of(decide_entry(stored, v)));
    }
    ask_ledger(stored, tag, v, lent, answer)
}
