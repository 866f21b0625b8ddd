// The program `replay`. It reads a replay from standard input, a card and a list of calls of any length, and prints a line for the
// card and one for each call.
#![tactic(auto)]

ghost use Rattle.std.specs.Prelude.{◌≡◌, ◌⊎◌, ◌≤◌, [], length};
ghost use Rattle.text.specs.Text.{line_text};
ghost use Rattle.streams.specs.Writes.{Puts};

use input::PartError;
use std::env::Env;
use std::io::{Read, Write};
use streams::{Failed, Status};
use text::Text;

mod answer;
mod input;

// The last line of a replay that is malformed.
fn end_malformed<E: Eprint, W: Write, const N: usize>(
    rt: &E,
    output: &mut W,
    line: &mut Text<N>,
) -> Result<(), Failed>
    requires { 85 ≤ N }
    ensures { Puts result (W.contents output.old) (W.contents output.new) (line_text [] []) }
{
    answer::put_malformed(line);
    streams::put(rt, output, line.as_slice())
}

// The program after its arguments. It succeeds for a malformed replay too, whose last line says so, and fails where a read or a write did:
// it ends there and prints nothing more. Each line is written at once. `out` has room for 65,535 bytes in hexadecimal and the numbers before
// them.
pub fn run<E: Eprint, R: Read, W: Write>(
    rt: &E,
    input: &mut R,
    output: &mut W,
) -> Result<(), Failed> {
    // a read and a written card need a buffer, and neither a value nor a card has more bytes
    let mut value = [0u8; 65535];
    let mut lent = [0u8; 65535];
    let mut out = Text::<131155>::new();
    let mut size_bytes = [0u8; 2];
    let card_size = match input::read_part(rt, input, &mut size_bytes, &mut value) {
        Ok(Some(n)) => n,
        Ok(None) | Err(PartError::Cut) => return end_malformed(rt, output, &mut out),
        Err(PartError::Failed) => return Err(Failed),
    };
    let mut ledger = answer::answer_card(&value[..card_size], &mut out);
    streams::put(rt, output, out.as_slice())?;
    let mut head = [0u8; 3];
    // a proved loop has to end, and nothing says that an input does: it counts its turns, to a number that no run reaches
    for _ in 0..u64::MAX {
        let n = match input::read_part(rt, input, &mut head, &mut value) {
            Ok(Some(n)) => n,
            Ok(None) => return Ok(()),
            Err(PartError::Cut) => return end_malformed(rt, output, &mut out),
            Err(PartError::Failed) => return Err(Failed),
        };
        let tag = head[0];
        let part = &value[..n];
        let goes_on = if replay_entries::entry::is_call(tag) {
            answer::answer_call(&mut ledger, tag, part, &lent, &mut out)
        } else {
            answer::answer_query(&ledger, tag, part, &mut lent, &mut out)
        };
        streams::put(rt, output, out.as_slice())?;
        if !goes_on {
            return Ok(());
        }
    }
    Err(Failed)
}

// The whole program. It takes no arguments: with any it prints its usage, reads nothing and fails. `cardcheck_main` is the same but for its
// usage and its run: one function for both would take the run as a closure, and what the run promises with it.
pub fn replay_main<E: Env + Eprint, R: Read, W: Write>(
    rt: &E,
    input: &mut R,
    output: &mut W,
) -> Status
    ensures { (result ≡ Status.Success) ⊎ (result ≡ Status.Failed) }
{
    if arguments::count(rt, 2) != 1 {
        let _ = rt.eprintln("usage: replay < REPLAY");
        return Status::Failed;
    }
    Status::from(run(rt, input, output))
}
