// Conflict: two directives of opposite effect that match a request in common. The parts of a ledger are handed on one by one: the ledger is
// of a crate above.
ghost use Rattle.std.specs.Prelude.{◌≡◌, List, ◌<◌, ◌≤◌, length};
ghost use Rattle.sets.specs.Quantifiers.{keep};
ghost use Rattle.register.specs.declared.Record.{Record as Held};
ghost use Rattle.register.specs.Register.{record_places, holding};
ghost use Rattle.directive.specs.Lowest.{best_of};
ghost use Rattle.active.specs.Active.{directives_of, active_in};
ghost use Rattle.validation_meaning.specs.Meaning.{conflict};
ghost use Rattle.validation_meaning.specs.Search.{subjects_meet, conflict_found, Fit};
ghost use Rattle.validation_meaning.specs.Active.{AllFit};
ghost use Rattle.validation_conflict.specs.Given.{Given};

use crate::minutes::first_minute;
use active::{Active, ActiveList};
use directive::Subject;
use directive::lowest::{self, Best};
use register::roles;
use sets::bits;

// Whether some person in some role is covered by both subjects.
fn subjects_meet(parents: &[u8], s: Subject, t: Subject) -> bool
    ensures { result ≡ subjects_meet parents.now s t }
{
    match (s, t) {
        (Subject::Person(n), Subject::Person(k)) => n == k,
        (Subject::Role(n), Subject::Role(k)) => roles::meet(parents, n, k),
        (Subject::Person(_), Subject::Role(_)) | (Subject::Role(_), Subject::Person(_)) => true,
    }
}

// Whether a and e, each with what it selects, are of opposite effect and overlap in each dimension.
#[tactic(auto, using(crate::proofs::ConflictTests::conflict_tested))]
fn conflicts(parents: &[u8], clock: u32, a: &Active, e: &Active) -> bool
    ensures { (rs : List Held) → length rs ≤ record_places → a.now ≡ active_in rs a.now.directive → e.now ≡ active_in rs e.now.directive → result ≡ conflict_found (holding parents.now rs) clock a.now.directive e.now.directive }
{
    let d = &a.directive;
    let f = &e.directive;
    d.permit != f.permit
        && first_minute(d, clock).max(first_minute(f, clock)) < d.until.min(f.until)
        && bits::meet(d.subject_origins, f.subject_origins)
        && bits::meet(d.purposes % 2048, f.purposes)
        && subjects_meet(parents, d.subject, f.subject)
        && a.selected.intersects(e.selected)
}

// The lowest of the active directives that a conflicts with.
pub fn lowest_conflict(parents: &[u8], clock: u32, a: &Active, list: &ActiveList) -> Option<Best>
    ensures searched { (rs : List Held) → Given rs a.now list.now → result ≡ best_of (keep (conflict_found (holding parents.now rs) clock a.now.directive) (directives_of list.now)) }
    ensures meant { (rs : List Held) → Given rs a.now list.now → 0 < length parents.now → Fit (holding parents.now rs) a.now.directive → AllFit (holding parents.now rs) (directives_of list.now) → result ≡ best_of (keep (conflict (holding parents.now rs) clock a.now.directive) (directives_of list.now)) }
{
    lowest::lowest_met(
        list.as_slice(),
        |e| conflicts(parents, clock, a, e).then_some(Best::of(&e.directive)),
    )
}
