// Sets of numbers below 128, as two words: number i is bit i mod 64 of word i / 64.
ghost use Rattle.std.specs.Prelude.{◌≡◌, false, ◌&&◌, ◌||◌, ℕ, ◌<◌, nat_eq};
ghost use Rattle.sets.specs.Quantifiers.{some_of};
ghost use Rattle.sets.specs.RecordSets.{contains, set_bits};

#[derive(Clone, Copy)]
pub struct RecordSet {
    pub low: u64,
    pub high: u64,
}

impl RecordSet {
    pub fn empty() -> RecordSet
        ensures { (k : ℕ) → contains result k ≡ false }
    {
        RecordSet { low: 0, high: 0 }
    }

    // The set with x in it; a number past 127 adds nothing.
    fn with(self, x: usize) -> RecordSet
        ensures { (k : ℕ) → k < 128 → contains result k ≡ nat_eq x k || contains self k }
    {
        if x < 64 {
            return RecordSet {
                low: self.low | (1 << x),
                high: self.high,
            };
        }
        if x < 128 {
            return RecordSet {
                low: self.low,
                high: self.high | (1 << (x - 64)),
            };
        }
        self
    }

    // The set with x in it where b holds: one call either way, so that a caller's loop has one path.
    pub fn with_where(self, x: usize, b: bool) -> RecordSet
        ensures { (k : ℕ) → k < 128 → contains result k ≡ b && nat_eq x k || contains self k }
    {
        if b { self.with(x) } else { self }
    }

    pub fn contains(self, x: usize) -> bool
        ensures { result ≡ contains self x }
    {
        if x < 64 {
            return (self.low >> x) % 2 == 1;
        }
        if x < 128 {
            return (self.high >> (x - 64)) % 2 == 1;
        }
        false
    }

    // Whether the two share a number.
    pub fn intersects(self, other: RecordSet) -> bool
        ensures { result ≡ some_of 128 (contains self) (contains other) }
    {
        self.low & other.low != 0 || self.high & other.high != 0
    }

    // How many numbers there are in the set: the ones of its words.
    pub fn len(self) -> u32
        ensures { result ≡ set_bits self }
    {
        self.low.count_ones() + self.high.count_ones()
    }
}
