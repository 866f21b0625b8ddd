// Numbers written as bytes, high byte first, read from a slice and written into one. A place stands beside the bytes: a promise says which
// bytes of the whole change, and a slice from the place on would say it no plainer; `get` has its place as `put` has.
ghost use Rattle.std.specs.Prelude.{◌≡◌, ◌+◌, ◌<◌, ◌≤◌, ℕ, length};
ghost use Rattle.std.proofs.lemmas.List.Edits.{sets};
ghost use Rattle.sets.specs.Numbers.{number_at, bytes};

// A number of some bytes' width.
pub trait BigEndian {
    ghost width: { ℕ };

    ghost value: { Self → ℕ };

    // The number that the bytes from place `at` on write.
    fn get(s: &[u8], at: usize) -> Self
        requires { at + width ≤ length s.now }
        ensures { value result ≡ number_at at width s.now };

    // Writes its bytes from place `at` on.
    fn put(self, s: &mut [u8], at: usize)
        requires { at + width ≤ length s.old }
        ensures { s.new ≡ sets s.old at (bytes width (value self)) };
}

impl BigEndian for u8 {
    ghost width = { 1 };

    ghost value = { λ v. v };

    fn get(s: &[u8], at: usize) -> Self {
        s[at]
    }

    fn put(self, s: &mut [u8], at: usize) {
        s[at] = self;
    }
}

impl BigEndian for u16 {
    ghost width = { 2 };

    ghost value = { λ v. v };

    fn get(s: &[u8], at: usize) -> Self {
        u16::from_be_bytes([s[at], s[at + 1]])
    }

    fn put(self, s: &mut [u8], at: usize) {
        s[at..at + 2].copy_from_slice(&self.to_be_bytes());
    }
}

impl BigEndian for u32 {
    ghost width = { 4 };

    ghost value = { λ v. v };

    fn get(s: &[u8], at: usize) -> Self {
        u32::from_be_bytes([s[at], s[at + 1], s[at + 2], s[at + 3]])
    }

    fn put(self, s: &mut [u8], at: usize) {
        s[at..at + 4].copy_from_slice(&self.to_be_bytes());
    }
}
