// The line of each answer. No generic function stands for several: their errors would need a trait that nothing else uses. A `usize` becomes a
// number by `as`: std has no `From` for it.
ghost use Rattle.std.specs.Prelude.{◌≡◌};
ghost use Rattle.ledger.specs.Answer.{directive_refusal, commit_refusal, commit_answer, revoke_answer, advance_answer, issue_answer, brief_answer, decide_answer};
ghost use Rattle.ledger_preview.specs.Answer.{preview_answer};
ghost use Rattle.card.specs.Answer.{write_answer};
ghost use Rattle.ledger_model.specs.Answer.{answer_line};
ghost use Rattle.replay_entries.specs.Entries.{said_of, line_of, length_of, shown_of, Shows};

use crate::entry::{EntryAnswer, Malformed};
use crate::shown::Line;
use card::WriteRefusal;
use emergency::Brief;
use ledger::answer::{
    BeforeClock, CommitRefusal, Decision, DirectiveRefusal, Dropped, IssueRefusal, NoToken,
    NotActive, NotInRegister,
};
use ledger_preview::PreviewRefusal;

// The number of the question missed; a conflict also names a directive.
pub fn directive_line(why: DirectiveRefusal) -> Line
    ensures { Shows result (answer_line (directive_refusal why)) 0 }
{
    let question = why.question();
    match why {
        DirectiveRefusal::Conflicts(number) => Line::of(&[question, u64::from(number)]),
        _ => Line::of(&[question]),
    }
}

// The same of a draft.
fn refusal_line(why: CommitRefusal) -> Line
    ensures { Shows result (answer_line (commit_refusal why)) 0 }
{
    match why {
        CommitRefusal::Directive(directive) => directive_line(directive),
        _ => Line::of(&[why.question()]),
    }
}

fn commit_line(a: Result<(), CommitRefusal>) -> Line
    ensures { Shows result (answer_line (commit_answer a)) 0 }
{
    match a {
        Ok(()) => Line::of(&[0]),
        Err(why) => refusal_line(why),
    }
}

fn revoke_line(a: Result<(), NotActive>) -> Line
    ensures { Shows result (answer_line (revoke_answer a)) 0 }
{
    match a {
        Ok(()) => Line::of(&[0]),
        Err(NotActive) => Line::of(&[NotActive.question()]),
    }
}

fn advance_line(a: Result<Dropped, BeforeClock>) -> Line
    ensures { Shows result (answer_line (advance_answer a)) 0 }
{
    match a {
        Ok(dropped) => Line::of(&[0, dropped.directives as u64, dropped.tokens as u64]),
        Err(BeforeClock) => Line::of(&[BeforeClock.question()]),
    }
}

fn issue_line(a: Result<(), IssueRefusal>) -> Line
    ensures { Shows result (answer_line (issue_answer a)) 0 }
{
    match a {
        Ok(()) => Line::of(&[0]),
        Err(refusal) => Line::of(&[refusal.question()]),
    }
}

fn decide_line(a: Result<Decision, NotInRegister>) -> Line
    ensures { Shows result (answer_line (decide_answer a)) 0 }
{
    match a {
        Ok(Decision::Patient) => Line::of(&[0, 1, 1]),
        Ok(Decision::Author) => Line::of(&[0, 1, 2]),
        Ok(Decision::Directive { permit, number }) => {
            Line::of(&[0, u64::from(permit), 3, u64::from(number)])
        }
        Ok(Decision::Default { permit }) => Line::of(&[0, u64::from(permit), 4]),
        Err(NotInRegister) => Line::of(&[NotInRegister.question()]),
    }
}

fn brief_line(a: Result<Brief, NoToken>) -> Line
    ensures { Shows result (answer_line (brief_answer a)) 0 }
{
    match a {
        Ok(Brief { records, count }) => Line::of(&[0, records.low, records.high, u64::from(count)]),
        Err(NoToken) => Line::of(&[NoToken.question()]),
    }
}

// The bytes of a written card stand at the start of the lent buffer.
fn write_line(a: Result<usize, WriteRefusal>) -> Line
    ensures { Shows result (answer_line (write_answer a)) (length_of (write_answer a)) }
{
    match a {
        Ok(size) => {
            let mut line = Line::of(&[0, size as u64]);
            line.bytes = size;
            line
        }
        Err(why) => Line::of(&[why.question()]),
    }
}

// What would change, as a brief; a draft that would be refused has the line of its commit.
fn preview_line(a: Result<Brief, PreviewRefusal>) -> Line
    ensures { Shows result (answer_line (preview_answer a)) 0 }
{
    match a {
        Ok(changes) => brief_line(Ok(changes)),
        Err(PreviewRefusal::Commit(why)) => refusal_line(why),
        Err(PreviewRefusal::RequesterOutOfRange) => {
            Line::of(&[PreviewRefusal::RequesterOutOfRange.question()])
        },
    }
}

pub fn line_of(entry: Result<EntryAnswer, Malformed>) -> Line
    ensures { Shows result (line_of (said_of entry)) (shown_of (said_of entry)) }
{
    match entry {
        Ok(EntryAnswer::Commit(a)) => commit_line(a),
        Ok(EntryAnswer::Revoke(a)) => revoke_line(a),
        Ok(EntryAnswer::Advance(a)) => advance_line(a),
        Ok(EntryAnswer::Issue(a)) => issue_line(a),
        Ok(EntryAnswer::Decide(a)) => decide_line(a),
        Ok(EntryAnswer::Brief(a)) => brief_line(a),
        Ok(EntryAnswer::Write(a)) => write_line(a),
        Ok(EntryAnswer::Preview(a)) => preview_line(a),
        Err(Malformed) => Line::of(&[]),
    }
}
