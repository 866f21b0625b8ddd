// The baseline: the patient reads every record, and an author their own. The parts of a ledger are handed on one by one: the ledger is of a
// crate above.
ghost use Rattle.std.specs.Prelude.{◌≡◌, ◌<◌, length};
ghost use Rattle.sets.specs.Quantifiers.{some_of};
ghost use Rattle.register.specs.Register.{contents};
ghost use Rattle.directive.specs.Selection.{selects};
ghost use Rattle.active.specs.Active.{active_in};
ghost use Rattle.validation_meaning.specs.Meaning.{has_baseline, breaks_baseline};
ghost use Rattle.validation_meaning.specs.Search.{breaks_for_found, breaks_baseline_found, Fit};

use crate::minutes::first_minute;
use active::Active;
use directive::Subject;
use register::Register;

// Whether the directive selects a record of which the person has the baseline.
fn selects_own(register: &Register, patient: u16, a: &Active, person: u16) -> bool
    requires { a.now ≡ active_in (contents register.now).records a.now.directive }
    ensures { result ≡ some_of (length (contents register.now).records) (selects (contents register.now).records a.now.directive) (has_baseline (contents register.now) patient person) }
{
    register.records().iter().enumerate().any(|(x, record)| a.selected.contains(x)
        && (record.author == person || patient == person))
}

// Whether a deny that names a person matches some request of theirs that the baseline permits.
#[tactic(auto, using(crate::proofs::BaselineTests::some_origin, crate::proofs::BaselineTests::some_purpose))]
fn breaks_for(register: &Register, patient: u16, clock: u32, a: &Active) -> bool
    requires { a.now ≡ active_in (contents register.now).records a.now.directive }
    ensures { result ≡ breaks_for_found (contents register.now) patient clock a.now.directive a.now.directive.subject }
{
    let d = &a.directive;
    let Subject::Person(person) = d.subject else {
        return false;
    };
    first_minute(d, clock) < d.until
        && d.subject_origins != 0
        && d.purposes % 2048 != 0
        && selects_own(register, patient, a, person)
}

// Whether the directive breaks the baseline.
#[tactic(auto, using(validation_meaning::proofs::Exact::baseline_exact), unfolding(validation_meaning::specs::Search::breaks_baseline_found))]
pub fn breaks_baseline(register: &Register, patient: u16, clock: u32, a: &Active) -> bool
    requires { a.now ≡ active_in (contents register.now).records a.now.directive }
    ensures searched { result ≡ breaks_baseline_found (contents register.now) patient clock a.now.directive }
    ensures meant { 0 < length (contents register.now).roles → Fit (contents register.now) a.now.directive → result ≡ breaks_baseline (contents register.now) patient clock a.now.directive }
{
    !a.directive.permit && breaks_for(register, patient, clock, a)
}
