// A turn of a replay without its input and output: its line as the whole of a text, and the ledger after it. A tag is the byte of the replay,
// as in `replay_entries::entry`. The text has room for 85 bytes at least: four numbers of 20 digits, the blanks after them and the line end.
ghost use Rattle.std.specs.Prelude.{◌≡◌, true, false, [], ◌+◌, ◌*◌, ◌≤◌, length};
ghost use Rattle.ledger.specs.Invariant.{Invariant};
ghost use Rattle.replay_entries.specs.Entries.{is_call, said_of, entry_of};
ghost use Rattle.text.specs.Text.{line_text};
ghost use Rattle.program_replay.specs.Promises.{Prints, CardTurn, EntryTurn};

use card_reading::check::CardLine;
use ledger::Ledger;
use replay_entries::entry::{self, EntryAnswer, Malformed};
use replay_entries::line;
use text::Text;

// The line of what an entry comes to, and whether another entry may follow it: none follows one that is malformed. A `bool`, since the line is
// printed either way. A written card stands at the start of the lent bytes.
fn put_answer<const N: usize>(
    out: &mut Text<N>,
    a: Result<EntryAnswer, Malformed>,
    lent: &[u8],
) -> bool
    requires { 85 + 2 * length lent.now ≤ N }
    ensures { Prints (said_of a) lent.now result out.new }
{
    let line = line::line_of(a);
    let n = line.bytes.min(lent.len());
    out.clear();
    out.push_line(line.numbers(), &lent[..n]);
    a.is_ok()
}

// The line where a card, a head or a value does not stand whole.
pub fn put_malformed<const N: usize>(out: &mut Text<N>)
    requires { 85 ≤ N }
    ensures { out.new ≡ line_text [] [] }
{
    out.clear();
    out.push_line(&[], b"");
}

// The line of a card, and the ledger that it gives.
pub fn answer_card<const N: usize>(card: &[u8], out: &mut Text<N>) -> Ledger
    requires { 85 ≤ N }
    ensures { CardTurn card.now result out.new }
{
    let read = card_reading::read::read(card);
    let numbers = CardLine::of(&read).numbers();
    out.clear();
    out.push_line(&numbers, b"");
    read.unwrap_or(Ledger::empty())
}

// One entry of a tag that can change the ledger; whether another may follow it.
pub fn answer_call<const N: usize>(
    ledger: &mut Ledger,
    tag: u8,
    value: &[u8],
    lent: &[u8],
    out: &mut Text<N>,
) -> bool
    requires { (is_call tag ≡ true) × Invariant ledger.old × (85 + 2 * length lent.now ≤ N) }
    ensures { EntryTurn ledger.old (entry_of tag value.now) lent.now ledger.new result lent.now out.new }
{
    let a = entry::run_call(ledger, tag, value);
    put_answer(out, a, lent)
}

// One entry of any other tag, which leaves the ledger: a write is lent the start of the bytes `lent`. Whether another may follow it.
pub fn answer_query<const N: usize>(
    ledger: &Ledger,
    tag: u8,
    value: &[u8],
    lent: &mut [u8],
    out: &mut Text<N>,
) -> bool
    requires { (is_call tag ≡ false) × Invariant ledger.now × (85 + 2 * length lent.old ≤ N) }
    ensures { EntryTurn ledger.now (entry_of tag value.now) lent.old ledger.now result lent.new out.new }
{
    let a = entry::run_query(ledger, tag, value, lent);
    put_answer(out, a, lent)
}
