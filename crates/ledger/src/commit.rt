// Commit: the questions of a draft, and its directive put last in the active list.
ghost use Rattle.std.specs.Prelude.{◌≡◌, ◌<◌, [], IfOk};
ghost use Rattle.register.specs.Register.{contents};
ghost use Rattle.directive.specs.Places.{active_places};
ghost use Rattle.active.specs.Active.{active_in};
ghost use Rattle.drafts.specs.Form.{directive_of};
ghost use Rattle.drafts.proofs.FormLaws.{Widths};
ghost use Rattle.validation_meaning.specs.Searched.{searched};
ghost use Rattle.ledger_model.specs.Answer.{done};
ghost use Rattle.ledger_model.specs.Questions.{first_no, has_subject, in_register, has_minutes, directive_questions};
ghost use Rattle.ledger.specs.State.{view};
ghost use Rattle.ledger.specs.Answer.{asked_answer};
ghost use Rattle.ledger.specs.Invariant.{Shape};
ghost use Rattle.ledger.specs.Promises.{after, Admits, CommitsDraft, Commits};

use crate::Ledger;
use crate::answer::{CommitRefusal, DirectiveRefusal};
use active::Active;
use directive::{Directive, Subject};
use drafts::Draft;
use register::Register;
use validation_conflict::{baseline, conflict};
use validation_redundancy::search;

// Whether the register has the role, if one is named.
fn has_subject(register: &Register, s: Subject) -> bool
    ensures { result ≡ has_subject (contents register.now) s }
{
    match s {
        Subject::Person(_) => true,
        Subject::Role(n) => usize::from(n) < register.roles().len(),
    }
}

// Question 8.
fn in_register(register: &Register, d: &Directive) -> bool
    ensures { result ≡ in_register (contents register.now) d.now }
{
    has_subject(register, d.subject) && usize::from(d.record) < register.records().len()
}

// Question 9.
fn has_minutes(clock: u32, d: &Directive) -> bool
    ensures { result ≡ has_minutes clock d.now }
{
    d.from < d.until && clock < d.until
}

impl Ledger {
    // Questions 7 to 13 of the numbers of a draft, by search: the directive that they mean, with the records that it selects.
    fn asked(&self, s: Draft) -> Result<Active, DirectiveRefusal>
        ensures answer { Shape self.now → asked_answer result ≡ first_no (directive_questions searched (view self.now) s) (done []) }
        ensures meant { IfOk result (λ a. a ≡ active_in (view self.now).register.records (directive_of s)) }
        ensures room { IfOk result (λ _. self.now.active.count < active_places) }
        ensures widths { Widths s }
    {
        let d = Directive::try_from(s)?;
        if !in_register(&self.register, &d) {
            return Err(DirectiveRefusal::NotInRegister);
        }
        if !has_minutes(self.clock, &d) {
            return Err(DirectiveRefusal::NoMinutes);
        }
        if self.active.has_number(d.number) {
            return Err(DirectiveRefusal::NumberTaken);
        }
        if active::PLACES <= self.active.len() {
            return Err(DirectiveRefusal::ListFull);
        }
        let a = Active::new(&self.register, d);
        if baseline::breaks_baseline(&self.register, self.patient, self.clock, &a) {
            return Err(DirectiveRefusal::BreaksBaseline);
        }
        match conflict::lowest_conflict(self.register.roles(), self.clock, &a, &self.active) {
            Some(lowest) => Err(DirectiveRefusal::Conflicts(lowest.number)),
            None => Ok(a),
        }
    }

    // A directive of a card: questions 7 to 13, and last in the active list where it passes them.
    pub fn admit(&mut self, s: Draft) -> Result<(), DirectiveRefusal>
        ensures { Admits self.old s (after result self.new) }
    {
        let admitted = self.asked(s)?;
        self.active.push(admitted);
        Ok(())
    }

    // A decoded draft: questions 7 to 14, and its directive last in the active list where it passes them.
    pub fn commit_draft(&mut self, s: Draft) -> Result<(), CommitRefusal>
        ensures { CommitsDraft self.old s (after result self.new) }
    {
        let a = self.asked(s)?;
        if search::is_redundant(self.register.roles(), self.clock, &a, &self.active) {
            return Err(CommitRefusal::Redundant);
        }
        self.active.push(a);
        Ok(())
    }

    // A draft's bytes, of any length: question 6, and then those of the draft that they write.
    pub fn commit(&mut self, draft: &[u8]) -> Result<(), CommitRefusal>
        ensures { Commits self.old draft.now (after result self.new) }
    {
        if draft.len() != drafts::SIZE {
            return Err(CommitRefusal::WrongLength);
        }
        self.commit_draft(Draft::from_bytes(draft))
    }
}
