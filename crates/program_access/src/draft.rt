// The table with a draft: the draft's refusal, or what would change.
ghost use Rattle.std.specs.Prelude.{◌≡◌, true, ◌&&◌, ◌+◌, ◌++◌, ◌≤◌, length};
ghost use Rattle.sets.specs.RecordSets.{record_set_of};
ghost use Rattle.ledger_model.specs.Answer.{accepted};
ghost use Rattle.ledger_model.specs.Questions.{requester_in_range};
ghost use Rattle.ledger_model.specs.Calls.{committed};
ghost use Rattle.ledger_model.specs.Preview.{decision_changes};
ghost use Rattle.ledger.specs.State.{view};
ghost use Rattle.ledger.specs.Invariant.{Invariant};
ghost use Rattle.ledger.specs.Answer.{commit_refusal};
ghost use Rattle.program_access.specs.Table.{added, added_text, draft_refusal_text, draft_text};
ghost use Rattle.program_access.specs.Promises.{Prints};

use crate::table::{Change, Table};
use directive::Requester;
use ledger::Ledger;
use ledger::answer::{CommitRefusal, DirectiveRefusal};
use sets::record_set::RecordSet;
use streams::Status;
use text::Text;

// What a refusal adds to its number: the directive that a conflict names.
#[tactic(auto, unfolding(crate::specs::Words::named_word))]
fn put_added<const N: usize>(out: &mut Text<N>, why: CommitRefusal)
    requires { length out.old + 32 ≤ N }
    ensures text { out.new ≡ out.old ++ added_text (added (commit_refusal why)) }
    ensures growth { length out.new ≤ length out.old + 32 }
{
    if let CommitRefusal::Directive(DirectiveRefusal::Conflicts(number)) = why {
        out.push_bytes(b", directive ");
        out.push_decimal(u64::from(number));
    }
}

// The draft's refusal.
#[tactic(auto, unfolding(crate::specs::Words::draft_refused_word))]
fn put_draft_refusal<const N: usize>(out: &mut Text<N>, why: CommitRefusal)
    requires { length out.old + 80 ≤ N }
    ensures { out.new ≡ out.old ++ draft_refusal_text (commit_refusal why) }
{
    out.push_bytes(b"draft refused: question ");
    out.push_decimal(why.question());
    put_added(out, why);
    out.push_bytes(b"\n");
}

// The records whose decision would change by a commit that accepts the draft, for a requester in range; free elsewhere.
fn changed_records(ledger: &Ledger, draft: &[u8], w: Requester) -> RecordSet
    requires { Invariant ledger.now }
    ensures { accepted (committed (view ledger.now) draft.now).answer ≡ true → requester_in_range (view ledger.now).register w ≡ true → result ≡ record_set_of (decision_changes (view ledger.now) (committed (view ledger.now) draft.now).model w) }
{
    match ledger_preview::preview(ledger, draft, w) {
        Ok(brief) => brief.records,
        Err(_) => RecordSet::empty(),
    }
}

// The table with what the draft would change, where a commit would accept it.
pub fn put_draft<const N: usize>(
    ledger: &Ledger,
    draft: &[u8],
    w: Requester,
    out: &mut Text<N>,
) -> Status
    requires { Invariant ledger.now × (length out.old + 18480 ≤ N) }
    ensures { Prints (draft_text (view ledger.now) draft.now w) (accepted (committed (view ledger.now) draft.now).answer && requester_in_range (view ledger.now).register w) out.old result out.new }
{
    let mut after = *ledger;
    if let Err(why) = after.commit(draft) {
        put_draft_refusal(out, why);
        return Status::Refused;
    }
    let change = Some(Change {
        after: &after,
        records: changed_records(ledger, draft, w),
    });
    let table = Table {
        ledger,
        requester: w,
        change,
    };
    table.put_requester(out)
}
