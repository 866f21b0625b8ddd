// Masks of the active directives: bit i for directive i, set where it matches one value of a dimension.
ghost use Rattle.std.specs.Prelude.{◌≡◌, ◌&&◌, Bool};
ghost use Rattle.sets.specs.Bits.{bit, set_of};
ghost use Rattle.register.specs.Register.{role_places};
ghost use Rattle.register.specs.Roles.{has_role};
ghost use Rattle.active.specs.declared.Active.{Active as Entry};
ghost use Rattle.active.specs.Active.{entries_of};
ghost use Rattle.validation_meaning.specs.Search.{stands_for};
ghost use Rattle.validation_redundancy.specs.Masks.{mask_where, minute_mask, record_mask};

use active::{Active, ActiveList};
use directive::Subject;
use register::roles;
use sets::bits;
use validation_conflict::minutes::within;

// The directives whose entries pass the test.
fn mask_where<F: Fn(&Active) -> bool>(list: &ActiveList, test: F) -> u32
    requires { F.IsAlwaysCallable test }
    ensures { (p : Entry → Bool) → ((a : _) (b : Bool) → F.post test a b → b ≡ p a.now) → result ≡ mask_where p (entries_of list.now) }
{
    let mut mask: u32 = 0;
    for (i, a) in list.as_slice().iter().enumerate() {
        if test(a) {
            mask += 1 << i;
        }
    }
    mask
}

// Those from the origin.
pub fn origin_mask(list: &ActiveList, origin: u8) -> u32
    ensures { result ≡ mask_where (λ a. bit origin a.directive.subject_origins) (entries_of list.now) }
{
    mask_where(list, |a| bits::has(a.directive.subject_origins, origin))
}

// Those for the purpose.
pub fn purpose_mask(list: &ActiveList, purpose: u8) -> u32
    ensures { result ≡ mask_where (λ a. bit purpose a.directive.purposes) (entries_of list.now) }
{
    mask_where(list, |a| bits::has(a.directive.purposes, purpose))
}

// Those that cover, in the role, the person who stands for s.
pub fn role_mask(list: &ActiveList, parents: &[u8], s: Subject, role: u16) -> u32
    ensures { result ≡ mask_where (λ a. stands_for parents.now s a.directive.subject role) (entries_of list.now) }
{
    mask_where(list, |a| stands_for(parents, s, a.directive.subject, role))
}

// Those of the effect that select the record.
pub fn record_mask(list: &ActiveList, permit: bool, x: usize) -> u32
    ensures { result ≡ record_mask (entries_of list.now) permit x }
{
    mask_where(
        list,
        |a| permit == a.directive.permit && a.selected.contains(x),
    )
}

// Those that match at the minute.
pub fn minute_mask(list: &ActiveList, minute: u32) -> u32
    ensures { result ≡ minute_mask (entries_of list.now) minute }
{
    mask_where(
        list,
        |a| within(a.directive.from, a.directive.until, minute),
    )
}

// Whether the subject t covers, in the role, the person who stands for s.
fn stands_for(parents: &[u8], s: Subject, t: Subject, role: u16) -> bool
    ensures { result ≡ stands_for parents.now s t role }
{
    match t {
        Subject::Role(k) => roles::covers(parents, k, role),
        Subject::Person(k) => matches!(s, Subject::Person(n) if n == k),
    }
}

// The roles in which the subject t covers the person who stands for s.
pub fn standing_roles(parents: &[u8], s: Subject, t: Subject) -> u16
    ensures { result ≡ set_of role_places (λ r. has_role parents.now r && stands_for parents.now s t r) }
{
    match t {
        Subject::Role(k) => roles::covered_set(parents, k),
        Subject::Person(_) => roles::set_where(parents, |r| stands_for(parents, s, t, r)),
    }
}
