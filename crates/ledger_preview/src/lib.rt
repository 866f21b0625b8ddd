// Preview: which records a draft would open or close to one requester, before it is signed. The ledger stays as it is.
#![tactic(auto)]

ghost use Rattle.std.specs.Prelude.{◌≡◌, ◌&&◌, not, ◌<◌};
ghost use Rattle.sets.specs.RecordSets.{contains, record_set_of};
ghost use Rattle.ledger_model.specs.Answer.{refusal};
ghost use Rattle.ledger_model.specs.Preview.{permits, denies, is_change, decision_changes};
ghost use Rattle.ledger.specs.State.{view};
ghost use Rattle.ledger.specs.Invariant.{Invariant};
ghost use Rattle.ledger.specs.Answer.{decision_answer, decide_answer};
ghost use Rattle.ledger.specs.Promises.{after};
ghost use Rattle.ledger_preview.specs.Answer.{preview_refusal};
ghost use Rattle.ledger_preview.specs.Promises.{Compares, Previews};

use directive::Requester;
use emergency::Brief;
use ledger::answer::{CommitRefusal, Decision, NotInRegister};
use ledger::{Ledger, decision};
use sets::record_set::RecordSet;

#[derive(Clone, Copy, Debug, PartialEq, Eq)]
pub enum PreviewRefusal {
    // the draft would be refused
    Commit(CommitRefusal),
    // the requester's role, origin or purpose is out of range
    RequesterOutOfRange,
}

impl PreviewRefusal {
    // The number of the question missed.
    pub fn question(self) -> u64
        ensures { result ≡ refusal (preview_refusal self) }
    {
        match self {
            PreviewRefusal::Commit(why) => why.question(),
            PreviewRefusal::RequesterOutOfRange => 17,
        }
    }
}

impl From<CommitRefusal> for PreviewRefusal {
    ghost use Rattle.ledger_preview.specs.declared.PreviewRefusal.TheVariants as Refusal;

    ghost from_gives = { λ why r. r ≡ Refusal.Commit why };

    fn from(why: CommitRefusal) -> PreviewRefusal {
        PreviewRefusal::Commit(why)
    }
}

fn permits(decision: Decision) -> bool
    ensures permit { result ≡ permits (decision_answer decision) }
    ensures deny { denies (decision_answer decision) ≡ not result }
{
    match decision {
        Decision::Patient | Decision::Author => true,
        Decision::Directive { permit, .. } | Decision::Default { permit } => permit,
    }
}

// Whether a permit becomes a deny, or the reverse.
#[tactic(auto, unfolding(ledger_model::specs::Preview::is_change))]
fn is_change(
    before: Result<Decision, NotInRegister>,
    after: Result<Decision, NotInRegister>,
) -> bool
    ensures { result ≡ is_change (decide_answer before) (decide_answer after) }
{
    match (before, after) {
        (Ok(before), Ok(after)) => permits(before) != permits(after),
        _ => false,
    }
}

// Whether the decision on record x changes. The two ledgers and the requester are handed on as they are: a structure of them would be taken
// apart in each of the three functions.
#[tactic(auto, unfolding(ledger_model::specs::Preview::decision_changes))]
fn changes_at(before: &Ledger, after: &Ledger, w: Requester, x: usize) -> bool
    requires { x < 128 }
    ensures { Invariant before.now → Invariant after.now → result ≡ decision_changes (view before.now) (view after.now) w x }
{
    // `as`: x is below 128, and `TryFrom` would answer a `Result` that cannot fail
    let q = w.query_on(x as u8);
    is_change(before.decide(q), after.decide(q))
}

// The records of the set whose decision changes. What is outside the set is not decided.
fn changed_among(before: &Ledger, after: &Ledger, w: Requester, among: RecordSet) -> RecordSet
    ensures { Invariant before.now → Invariant after.now → result ≡ record_set_of (λ x. contains among x && decision_changes (view before.now) (view after.now) w x) }
{
    let mut found = RecordSet::empty();
    // over the numbers of records: an iterator of sets for this one loop would be no plainer
    for x in 0..register::RECORDS {
        let changes = among.contains(x) && changes_at(before, after, w, x);
        found = found.with_where(x, changes);
    }
    found
}

// The ledgers before and after a commit: question 17 of the requester, and the records whose decision changes. Only records that
// the new directive selects can change.
fn compared(before: &Ledger, after: &Ledger, w: Requester) -> Result<Brief, PreviewRefusal>
    ensures { Compares before.now after.now w result }
{
    if !decision::requester_in_range(before.register(), w) {
        return Err(PreviewRefusal::RequesterOutOfRange);
    }
    let among = after.active().last_selection();
    Ok(Brief::from(changed_among(before, after, w, among)))
}

// What the draft's bytes, of any length, would change for the requester at the clock: the records whose decision would change, and
// how many they are.
pub fn preview(ledger: &Ledger, draft: &[u8], w: Requester) -> Result<Brief, PreviewRefusal>
    ensures { Previews ledger.now draft.now w (after result ledger.now) }
{
    let mut committed = *ledger;
    committed.commit(draft)?;
    compared(ledger, &committed, w)
}
