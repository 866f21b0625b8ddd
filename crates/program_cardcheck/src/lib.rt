// The program `cardcheck`. It reads a card from standard input, at most its first 65,535 bytes, and prints one line: refusal (0 for
// none), records and active directives.
#![tactic(auto)]

ghost use Rattle.std.specs.Prelude.{◌≡◌, []};
ghost use Rattle.card.specs.Reading.{card_line};
ghost use Rattle.text.specs.Text.{line_text};
ghost use Rattle.streams.specs.Writes.{status_of};
ghost use Rattle.program_cardcheck.specs.Runs.{Answers};

use std::env::Env;
use std::io::{Read, Write};
use streams::{Failed, Status};
use text::Text;

// The line of the card with these bytes.
fn reply(card: &[u8]) -> Text<85>
    ensures { result ≡ line_text (card_line card.now) [] }
{
    let numbers = card_reading::check::check(card).numbers();
    let mut text = Text::new();
    text.push_line(&numbers, b"");
    text
}

// The program after its arguments. It succeeds for a refused card too, whose line says so, and fails where a read or the write did. Then no
// whole line is printed.
pub fn run<E: Eprint, R: Read, W: Write>(
    rt: &E,
    input: &mut R,
    output: &mut W,
) -> Result<(), Failed>
    ensures { Answers (status_of result) (R.remaining input.old) (W.contents output.old) (W.contents output.new) }
{
    // a read needs a buffer, and a card has at most 65,535 bytes
    let mut card = [0u8; 65535];
    let n = streams::fill(rt, input, &mut card)?;
    let line = reply(&card[..n]);
    streams::put(rt, output, line.as_slice())
}

// The whole program. It takes no arguments: with any it prints its usage, reads nothing and fails. `replay_main` is the same but for its usage
// and its run: one function for both would take the run as a closure, and what the run promises with it.
pub fn cardcheck_main<E: Env + Eprint, R: Read, W: Write>(
    rt: &E,
    input: &mut R,
    output: &mut W,
) -> Status
    ensures { Answers result (R.remaining input.old) (W.contents output.old) (W.contents output.new) }
{
    if arguments::count(rt, 2) != 1 {
        let _ = rt.eprintln("usage: cardcheck < CARD");
        return Status::Failed;
    }
    Status::from(run(rt, input, output))
}
