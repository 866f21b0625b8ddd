// How a card's ledger comes about: patient and clock, then roles, then records. Roles and a record are put to question 4 here.
ghost use Rattle.std.specs.Prelude.{◌≡◌, ◌<◌, ◌≤◌, length};
ghost use Rattle.register.specs.Register.{role_places, record_places};
ghost use Rattle.ledger.specs.State.{view};
ghost use Rattle.ledger.specs.Enrolment.{BeginsWith, EnrolsRoles, EnrolsRecord};

use crate::Ledger;
use register::{Record, form};

// The ranges of question 4 are not kept; `drafts::OutOfRange` is the same of question 7.
#[derive(Clone, Copy, Debug, PartialEq, Eq)]
pub struct OutOfRange;

impl Ledger {
    // The patient and the clock, and nothing else.
    pub fn begin(patient: u16, clock: u32) -> Ledger
        ensures { BeginsWith patient clock result }
    {
        let mut ledger = Ledger::empty();
        ledger.patient = patient;
        ledger.clock = clock;
        ledger
    }

    // Takes the parents of the roles into a ledger that has none yet.
    pub fn enrol_roles(&mut self, parents: &[u8]) -> Result<(), OutOfRange>
        requires { (length parents.now ≤ role_places) × (length (view self.old).register.roles ≡ 0) }
        ensures { EnrolsRoles self.old parents.now result self.new }
    {
        if !form::is_tree(parents) {
            return Err(OutOfRange);
        }
        let n = parents.len();
        self.register.roles[..n].copy_from_slice(parents);
        self.register.role_count = n;
        Ok(())
    }

    // Takes one record more into a ledger that has roles and no directives.
    pub fn enrol_record(&mut self, r: Record) -> Result<(), OutOfRange>
        requires { (length (view self.old).register.records < record_places) × (0 < length (view self.old).register.roles) × (length (view self.old).active ≡ 0) }
        ensures { EnrolsRecord self.old r result self.new }
    {
        let at = self.register.records().len();
        if !r.fits(at) {
            return Err(OutOfRange);
        }
        self.register.records[at] = r;
        self.register.record_count = at + 1;
        Ok(())
    }
}
