// The bytes of the roles and of a record: ranges, decoding and encoding.
ghost use Rattle.std.specs.Prelude.{◌≡◌, List, ◌+◌, ◌<◌, ◌≤◌, length};
ghost use Rattle.std.proofs.lemmas.List.Edits.{sets};
ghost use Rattle.register.specs.declared.Record.{Record as Held};
ghost use Rattle.register.specs.Tree.{parent_fits, is_tree};
ghost use Rattle.register.specs.Form.{record_size, record_of, record_bytes, record_fits};

use crate::{LAST_KIND, Record};
use sets::number::BigEndian;

// Whether p may stand in the place for the parent of number q.
pub fn parent_fits(q: usize, p: u8) -> bool
    ensures { result ≡ parent_fits q p }
{
    if q == 0 {
        return p == 0;
    }
    usize::from(p) < q
}

// Whether the bytes are the parents of roles 0, 1, ..
pub fn is_tree(s: &[u8]) -> bool
    ensures { result ≡ is_tree s.now }
{
    for (q, p) in s.iter().enumerate() {
        if !parent_fits(q, *p) {
            return false;
        }
    }
    true
}

impl Record {
    // The record that ten bytes write.
    pub fn from_bytes(s: &[u8]) -> Record
        requires { record_size ≤ length s.now }
        ensures { result ≡ record_of s.now }
    {
        Record {
            parent: u8::get(s, 0),
            author: u16::get(s, 1),
            origins: u16::get(s, 3),
            sensitivities: u16::get(s, 5),
            kind: u8::get(s, 7),
            labels: u16::get(s, 8),
        }
    }

    // Whether the record keeps its ranges where it comes after x others.
    #[tactic(auto, unfolding(crate::specs::Form::record_fits))]
    pub fn fits(self, x: usize) -> bool
        ensures { (earlier : List Held) → length earlier ≡ x → result ≡ record_fits earlier self }
    {
        parent_fits(x, self.parent)
            && 0 < self.origins
            && 0 < self.sensitivities
            && self.kind <= LAST_KIND
    }

    // Writes the record's ten bytes from place `at` on; a place for the reason in `sets::number`.
    pub fn put(self, s: &mut [u8], at: usize)
        requires { at + record_size ≤ length s.old }
        ensures { s.new ≡ sets s.old at (record_bytes self) }
    {
        self.parent.put(s, at);
        self.author.put(s, at + 1);
        self.origins.put(s, at + 3);
        self.sensitivities.put(s, at + 5);
        self.kind.put(s, at + 7);
        self.labels.put(s, at + 8);
    }
}
