// The program `access`: a card and a requester give a line for each record, permit or deny and why, at the card's clock. With a draft the
// line also says what its commit would change, and a last line how many records change.
#![tactic(auto)]

ghost use Rattle.std.specs.Prelude.{◌≡◌, ◌+◌, ◌≤◌, List, ℕ, Option, length, take, IfSome};
ghost use Rattle.std.specs.Option.{option_copied};
ghost use Rattle.std.specs.Result.{result_unwrap_or};
ghost use Rattle.arguments.specs.Decimal.{Bounded};
ghost use Rattle.program_access.specs.Arguments.{requester_of, with_draft, DraftAtMost};
ghost use Rattle.directive.specs.declared.Requester.{Requester};
ghost use Rattle.program_access.specs.Promises.{Shows, Answers};

use directive::Requester;
use std::env::Env;
use std::io::{Read, Write};
use streams::{Failed, Status};
use table::Table;
use text::Text;

mod draft;
mod table;
mod words;

// Who asks, and how many bytes the draft has, where there is one. They are a part of the caller's buffer, since nothing is allocated.
#[derive(Clone, Copy)]
pub struct Inquiry {
    pub requester: Requester,
    pub draft_size: Option<usize>,
}

// Who may read which record of the card, and what the draft would change, if there is one; how the program ends that prints it.
#[tactic(auto, using(crate::proofs::TableLaws::card_read), unfolding(crate::specs::Words::card_refused_word))]
fn access<const N: usize>(
    card: &[u8],
    draft: Option<&[u8]>,
    w: Requester,
    out: &mut Text<N>,
) -> Status
    requires { length out.old + 18480 ≤ N }
    ensures { Shows card.now (option_copied draft.entry) w out.old result out.new }
{
    let ledger = match card_reading::read::read(card) {
        Ok(ledger) => ledger,
        Err(why) => {
            words::put_numbered(out, b"card refused: question ", why.question());
            return Status::Refused;
        }
    };
    match draft {
        Some(draft) => draft::put_draft(&ledger, draft, w, out),
        None => {
            let table = Table {
                ledger: &ledger,
                requester: w,
                change: None,
            };
            table.put_requester(out)
        }
    }
}

// The requester that four numbers name; `as`, since the bounds are proved and std's conversion would answer a `Result`.
fn requester_of(
    person: Option<u64>,
    role: Option<u64>,
    origin: Option<u64>,
    purpose: Option<u64>,
) -> Option<Requester>
    requires { Bounded 65535 person × Bounded 65535 role × Bounded 255 origin × Bounded 255 purpose }
    ensures { result ≡ requester_of person role origin purpose }
{
    Some(Requester {
        person: person? as u16,
        role: role? as u16,
        origin: origin? as u8,
        purpose: purpose? as u8,
    })
}

// The requester with a draft of so many bytes; none where there is no draft.
fn with_draft(requester: Requester, draft: Option<usize>) -> Option<Inquiry>
    ensures { result ≡ with_draft requester draft }
{
    Some(Inquiry {
        requester,
        draft_size: Some(draft?),
    })
}

// What the arguments say: person, role, origin and purpose, and the draft where there is a fifth one; none where they cannot be used.
fn from_arguments<E: Env>(rt: &E, draft: &mut [u8]) -> Option<Inquiry>
    ensures { IfSome result (DraftAtMost (length draft.old)) }
{
    let count = arguments::count(rt, 7);
    if !(5..=6).contains(&count) {
        return None;
    }
    let person = arguments::argument(rt, 1, 65535);
    let role = arguments::argument(rt, 2, 65535);
    let origin = arguments::argument(rt, 3, 255);
    let purpose = arguments::argument(rt, 4, 255);
    let requester = requester_of(person, role, origin, purpose)?;
    if count == 5 {
        return Some(Inquiry {
            requester,
            draft_size: None,
        });
    }
    with_draft(
        requester,
        arguments::hexadecimal::bytes_argument(rt, 5, draft),
    )
}

// The program after its arguments. It succeeds for a table, refuses where the card, the draft or the requester is refused, and fails where
// a read or the write did. The card is the first 65,535 bytes of the input; no longer one is accepted. Its clock is the minute of every
// request.
pub fn run<E: Eprint, R: Read, W: Write>(
    rt: &E,
    input: &mut R,
    output: &mut W,
    draft: Option<&[u8]>,
    w: Requester,
) -> Result<Status, Failed>
    ensures { IfSome (R.remaining input.old) (λ bytes. Answers (take 65535 bytes) (option_copied draft.entry) w (result_unwrap_or result Status.Failed) (W.contents output.old) (W.contents output.new)) }
{
    // a read needs a buffer, and a card has at most 65,535 bytes
    let mut card = [0u8; 65535];
    let n = streams::fill(rt, input, &mut card)?;
    let mut out = Text::<18480>::new();
    let status = access(&card[..n], draft, w, &mut out);
    streams::put(rt, output, out.as_slice())?;
    Ok(status)
}

// The whole program. It ends as `run` does, or fails where the arguments cannot be used. Then it prints its usage on standard error, and
// reads nothing.
pub fn access_main<E: Env + Eprint, R: Read, W: Write>(
    rt: &E,
    input: &mut R,
    output: &mut W,
) -> Status
    ensures { (d : Option (List ℕ)) × (w : Requester) × IfSome (R.remaining input.old) (λ bytes. Answers (take 65535 bytes) d w result (W.contents output.old) (W.contents output.new)) }
{
    // an argument is read into a buffer: a draft of more bytes cannot be used
    let mut buffer = [0u8; 512];
    let Some(asked) = from_arguments(rt, &mut buffer) else {
        let _ = rt.eprintln("usage: access PERSON ROLE ORIGIN PURPOSE [DRAFT] < CARD");
        return Status::Failed;
    };
    let draft = asked.draft_size.map(|n| &buffer[..n]);
    run(rt, input, output, draft, asked.requester).unwrap_or(Status::Failed)
}
