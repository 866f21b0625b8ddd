// The table of all records of a ledger for one requester, with what a draft's commit would change.
ghost use Rattle.std.specs.Prelude.{◌+◌, ◌++◌, ◌<◌, ◌≤◌, ◌≡◌, true, length};
ghost use Rattle.ledger.specs.Invariant.{Invariant};

use crate::words;
use directive::Requester;
use ledger::{Ledger, decision};
use sets::record_set::RecordSet;
use streams::Status;
use text::Text;

// What a draft's commit would change: the ledger after it, and the records whose decision changes.
#[derive(Clone, Copy)]
pub struct Change<'a> {
    pub after: &'a Ledger,
    pub records: RecordSet,
    ghost sound: { Invariant after.now },
}

// A ledger, who asks, and what a draft would change, where there is one.
#[derive(Clone, Copy)]
pub struct Table<'a, 'b> {
    pub ledger: &'a Ledger,
    pub requester: Requester,
    pub change: Option<Change<'b>>,
    ghost sound: { Invariant ledger.now },
}

impl Table<'_, '_> {
    ghost use Rattle.ledger_model.specs.Questions.{requester_in_range};
    ghost use Rattle.ledger.specs.State.{view};
    ghost use Rattle.program_access.specs.Table.{change_text, record_text, record_texts, requester_text};
    ghost use Rattle.program_access.specs.Promises.{after_of, end_text, HasChanges, Prints};

    // The decision on record i after the change, where it changes. `as`, since std has no `From` from `usize` to `u8`, and its `TryFrom` would
    // answer a `Result` that cannot fail: there are at most 128 records.
    fn put_change<const N: usize>(&self, out: &mut Text<N>, i: usize)
        requires has_changes { HasChanges self.now }
        requires i_bound { (i < 128) × (length out.old + 61 ≤ N) }
        ensures text { out.new ≡ out.old ++ change_text (view self.now.ledger.now) (after_of self.now) self.now.requester i }
        ensures growth { length out.new ≤ length out.old + 61 }
    {
        let Some(change) = self.change else {
            return;
        };
        if change.records.contains(i) {
            out.push_bytes(b", changes to ");
            let q = self.requester.query_on(i as u8);
            words::put_answer(out, change.after.decide(q));
        }
    }

    // The line of record i; `as` for the same reason.
    #[tactic(auto, unfolding(crate::specs::Table::record_text))]
    fn put_record<const N: usize>(&self, out: &mut Text<N>, i: usize)
        requires has_changes { HasChanges self.now }
        requires i_bound { (i < 128) × (length out.old + 144 ≤ N) }
        ensures text { out.new ≡ out.old ++ record_text (view self.now.ledger.now) (after_of self.now) self.now.requester i }
        ensures growth { length out.new ≤ length out.old + 144 }
    {
        let q = self.requester.query_on(i as u8);
        words::put_decision(out, i, self.ledger.decide(q));
        self.put_change(out, i);
        out.push_bytes(b"\n");
    }

    // A line a record. A line has room in 144 bytes.
    #[tactic(auto, unfolding(crate::specs::Table::record_texts))]
    fn put_table<const N: usize>(&self, out: &mut Text<N>)
        requires { HasChanges self.now × (length out.old + 18432 ≤ N) }
        ensures text { out.new ≡ out.old ++ record_texts (view self.now.ledger.now) (after_of self.now) self.now.requester (length (view self.now.ledger.now).register.records) }
        ensures growth { length out.new ≤ length out.old + 18432 }
    {
        let count = self.ledger.register().records().len();
        // a line needs the number of its record alone
        for i in 0..count {
            self.put_record(out, i);
        }
    }

    // How many records change, where there is a draft.
    #[tactic(auto, unfolding(crate::specs::Words::count_word))]
    fn put_count<const N: usize>(&self, out: &mut Text<N>)
        requires { HasChanges self.now × (length out.old + 48 ≤ N) }
        ensures text { out.new ≡ out.old ++ end_text self.now }
        ensures growth { length out.new ≤ length out.old + 48 }
    {
        if let Some(change) = self.change {
            let count = u64::from(change.records.len());
            words::put_numbered(out, b"records that change: ", count);
        }
    }

    // The table, where the requester passes question 17, and how many records change, where there is a draft. How the program ends that
    // prints it: a table is a success.
    #[tactic(auto, unfolding(crate::specs::Words::requester_refused_word))]
    pub fn put_requester<const N: usize>(&self, out: &mut Text<N>) -> Status
        requires room { length out.old + 18480 ≤ N }
        requires has_changes { requester_in_range (view self.now.ledger.now).register self.now.requester ≡ true → HasChanges self.now }
        ensures { Prints (requester_text (view self.now.ledger.now) (after_of self.now) self.now.requester (end_text self.now)) (requester_in_range (view self.now.ledger.now).register self.now.requester) out.old result out.new }
    {
        let w = self.requester;
        if !decision::requester_in_range(self.ledger.register(), w) {
            words::put_numbered(out, b"requester refused: question ", 17);
            return Status::Refused;
        }
        self.put_table(out);
        self.put_count(out);
        Status::Success
    }
}
