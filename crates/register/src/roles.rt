// Roles by their parents: which roles a role covers, and sets of roles.
ghost use Rattle.std.specs.Prelude.{◌≡◌, ◌&&◌, Bool, ℕ, length};
ghost use Rattle.sets.specs.Quantifiers.{some_of};
ghost use Rattle.sets.specs.Bits.{set_of};
ghost use Rattle.register.specs.Register.{role_places};
ghost use Rattle.register.specs.Roles.{has_role, covers};

use crate::ROLES;

// Whether role r is q or stands above q on the way to role 0.
pub fn covers(parents: &[u8], r: u16, q: u16) -> bool
    ensures { result ≡ covers parents.now r q }
{
    if r == q {
        return true;
    }
    let Some(parent) = parents.get(usize::from(q)) else {
        return r == 0;
    };
    let p = u16::from(*parent);
    p < q && covers(parents, r, p)
}

// Whether some role is covered by both: one covers the other.
#[tactic(auto, using(crate::proofs::CoverLaws::both_cover))]
pub fn meet(parents: &[u8], n: u16, k: u16) -> bool
    ensures { result ≡ some_of (length parents.now) (covers parents.now n) (covers parents.now k) }
{
    let roles = parents.len();
    usize::from(k) < roles && covers(parents, n, k)
        || usize::from(n) < roles && covers(parents, k, n)
}

// The roles that pass the test, as a set.
pub fn set_where<F: Fn(u16) -> bool>(parents: &[u8], test: F) -> u16
    requires { F.IsAlwaysCallable test }
    ensures { (p : ℕ → Bool) → ((q : ℕ) (b : Bool) → F.post test q b → b ≡ p q) → result ≡ set_of role_places (λ q. has_role parents.now q && p q) }
{
    let mut set: u16 = 0;
    // Over the numbers of the roles, which index nothing. `as`: there are at most 16, and `TryFrom` would answer a `Result` that cannot fail.
    for q in 0..parents.len().min(ROLES) as u16 {
        if test(q) {
            set += 1 << q;
        }
    }
    set
}

// The roles that role r covers, as a set.
pub fn covered_set(parents: &[u8], r: u16) -> u16
    ensures { result ≡ set_of role_places (λ q. has_role parents.now q && covers parents.now r q) }
{
    set_where(parents, |q| covers(parents, r, q))
}
