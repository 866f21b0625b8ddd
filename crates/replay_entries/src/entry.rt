// One call as a replay writes it: a tag and a value.
ghost use Rattle.std.specs.Prelude.{◌≡◌, ◌≢◌, List, ℕ, ◌≤◌, length, MatchResult};
ghost use Rattle.ledger.specs.Promises.{after};
ghost use Rattle.replay_entries.specs.Entries.{query_size, query_of, requester_size, requester_of, is_call, commit_entry, revoke_entry, advance_entry, issue_entry, decide_entry, brief_entry, write_entry, preview_entry, call_entry, query_entry, Performs, Answers};

use card::WriteRefusal;
use directive::{Query, Requester};
use emergency::Brief;
use ledger::Ledger;
use ledger::answer::{
    BeforeClock, CommitRefusal, Decision, Dropped, IssueRefusal, NoToken, NotActive, NotInRegister,
};
use ledger_preview::PreviewRefusal;
use sets::number::BigEndian;

// One case a call.
#[derive(Clone, Copy)]
pub enum EntryAnswer {
    Commit(Result<(), CommitRefusal>),
    Revoke(Result<(), NotActive>),
    Advance(Result<Dropped, BeforeClock>),
    Issue(Result<(), IssueRefusal>),
    Decide(Result<Decision, NotInRegister>),
    Brief(Result<Brief, NoToken>),
    Write(Result<usize, WriteRefusal>),
    Preview(Result<Brief, PreviewRefusal>),
}

// A tag or a length that no call has.
#[derive(Clone, Copy, Debug, PartialEq, Eq)]
pub struct Malformed;

// Malformed where the value has another length.
pub fn has_length(v: &[u8], n: usize) -> Result<(), Malformed>
    ensures { MatchResult result (λ _. length v.now ≡ n) (λ _. length v.now ≢ n) }
{
    if v.len() != n {
        return Err(Malformed);
    }
    Ok(())
}

fn commit_entry(ledger: &mut Ledger, v: &[u8]) -> Result<EntryAnswer, Malformed>
    ensures { Performs ledger.old (commit_entry v.now) (after result ledger.new) }
{
    Ok(EntryAnswer::Commit(ledger.commit(v)))
}

fn revoke_entry(ledger: &mut Ledger, v: &[u8]) -> Result<EntryAnswer, Malformed>
    ensures { Performs ledger.old (revoke_entry v.now) (after result ledger.new) }
{
    has_length(v, 2)?;
    Ok(EntryAnswer::Revoke(ledger.revoke(u16::get(v, 0))))
}

fn advance_entry(ledger: &mut Ledger, v: &[u8]) -> Result<EntryAnswer, Malformed>
    ensures { Performs ledger.old (advance_entry v.now) (after result ledger.new) }
{
    has_length(v, 4)?;
    Ok(EntryAnswer::Advance(ledger.advance(u32::get(v, 0))))
}

fn issue_entry(ledger: &mut Ledger, v: &[u8]) -> Result<EntryAnswer, Malformed>
    ensures { Performs ledger.old (issue_entry v.now) (after result ledger.new) }
{
    has_length(v, 9)?;
    Ok(EntryAnswer::Issue(ledger.issue(
        u16::get(v, 0),
        u16::get(v, 2),
        u8::get(v, 4),
        u32::get(v, 5),
    )))
}

// The query of a decide's value.
pub fn query_of(v: &[u8]) -> Query
    requires { query_size ≤ length v.now }
    ensures { result ≡ query_of v.now }
{
    Query {
        requester: Requester {
            person: u16::get(v, 0),
            role: u16::get(v, 2),
            origin: u8::get(v, 4),
            purpose: u8::get(v, 6),
        },
        record: u8::get(v, 5),
    }
}

fn decide_entry(ledger: &Ledger, v: &[u8]) -> Result<EntryAnswer, Malformed>
    ensures { (buffer : List ℕ) → Answers ledger.now (decide_entry v.now) buffer result buffer }
{
    has_length(v, 7)?;
    Ok(EntryAnswer::Decide(ledger.decide(query_of(v))))
}

fn brief_entry(ledger: &Ledger, v: &[u8]) -> Result<EntryAnswer, Malformed>
    ensures { (buffer : List ℕ) → Answers ledger.now (brief_entry v.now) buffer result buffer }
{
    has_length(v, 4)?;
    Ok(EntryAnswer::Brief(ledger.brief(u16::get(v, 0), u16::get(v, 2))))
}

// Writes into the start of the buffer, or into all of it where it is shorter than the length asked for.
fn write_entry(ledger: &Ledger, v: &[u8], buffer: &mut [u8]) -> Result<EntryAnswer, Malformed>
    ensures { Answers ledger.now (write_entry v.now) buffer.old result buffer.new }
{
    has_length(v, 2)?;
    let n = usize::from(u16::get(v, 0)).min(buffer.len());
    Ok(EntryAnswer::Write(card_writing::write::write(ledger, &mut buffer[..n])))
}

// The requester at the start of a preview's value; in a decide's the record stands before the purpose.
fn requester_of(v: &[u8]) -> Requester
    requires { requester_size ≤ length v.now }
    ensures { result ≡ requester_of v.now }
{
    Requester {
        person: u16::get(v, 0),
        role: u16::get(v, 2),
        origin: u8::get(v, 4),
        purpose: u8::get(v, 5),
    }
}

// The draft is all that follows the requester.
fn preview_entry(ledger: &Ledger, v: &[u8]) -> Result<EntryAnswer, Malformed>
    ensures { (buffer : List ℕ) → Answers ledger.now (preview_entry v.now) buffer result buffer }
{
    if v.len() < 6 {
        return Err(Malformed);
    }
    let changes = ledger_preview::preview(ledger, &v[6..], requester_of(v));
    Ok(EntryAnswer::Preview(changes))
}

// Whether the tag is of a call that can change the ledger. A tag stays the byte that the replay gives: these functions take any, and an enum
// would be made of it and matched again in each.
#[tactic(auto, unfolding(crate::specs::Entries::is_call))]
pub fn is_call(tag: u8) -> bool
    ensures { result ≡ is_call tag }
{
    matches!(tag, 0x10..=0x13)
}

// The call of this tag and value, on this ledger; the tag of a query is malformed here.
#[tactic(auto, unfolding(crate::specs::Entries::entry_of, crate::specs::Entries::is_call))]
pub fn run_call(ledger: &mut Ledger, tag: u8, v: &[u8]) -> Result<EntryAnswer, Malformed>
    ensures { Performs ledger.old (call_entry tag v.now) (after result ledger.new) }
{
    match tag {
        0x10 => commit_entry(ledger, v),
        0x11 => revoke_entry(ledger, v),
        0x12 => advance_entry(ledger, v),
        0x13 => issue_entry(ledger, v),
        _ => Err(Malformed),
    }
}

// The query of this tag and value, on this ledger: a write is lent the start of the buffer; the tag of a call is malformed here.
#[tactic(auto, unfolding(crate::specs::Entries::entry_of, crate::specs::Entries::is_call))]
pub fn run_query(
    ledger: &Ledger,
    tag: u8,
    v: &[u8],
    buffer: &mut [u8],
) -> Result<EntryAnswer, Malformed>
    ensures { Answers ledger.now (query_entry tag v.now) buffer.old result buffer.new }
{
    match tag {
        0x14 => decide_entry(ledger, v),
        0x15 => brief_entry(ledger, v),
        0x16 => write_entry(ledger, v, buffer),
        0x17 => preview_entry(ledger, v),
        _ => Err(Malformed),
    }
}
