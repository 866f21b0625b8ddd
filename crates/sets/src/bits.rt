// Sets of numbers below 16, as bits. Bit 0 is the lowest.
ghost use Rattle.std.specs.Prelude.{◌≡◌, ◌||◌, ℕ};
ghost use Rattle.sets.specs.Bits.{bit, subset, shares};

// Whether k is in the set.
pub fn has(set: u16, k: u8) -> bool
    ensures { result ≡ bit k set }
{
    if 16 <= k {
        return false;
    }
    (set >> k) % 2 == 1
}

// Whether all of a lies in b.
pub fn within(a: u16, b: u16) -> bool
    ensures { result ≡ subset 16 a b }
{
    a & b == a
}

// Whether a and b share a bit.
pub fn meet(a: u16, b: u16) -> bool
    ensures { result ≡ shares 16 a b }
{
    a & b != 0
}

// The union of a and b.
pub fn join(a: u16, b: u16) -> u16
    ensures { (k : ℕ) → bit k result ≡ bit k a || bit k b }
{
    a | b
}
