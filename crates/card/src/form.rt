// The tags of the fields, the bytes of the head, and the editions.
ghost use Rattle.std.specs.Prelude.{◌≡◌, ◌+◌, ◌≤◌, length};
ghost use Rattle.std.proofs.lemmas.List.Edits.{sets};
ghost use Rattle.card.specs.Form.{head_size, head_of, head_bytes};

use ledger::enrolment::OutOfRange;
use sets::number::BigEndian;

// The tags that have a place.
#[derive(Clone, Copy, Debug, PartialEq, Eq)]
pub enum Tag {
    Head = 0x01,
    Roles = 0x02,
    Record = 0x03,
    Directive = 0x04,
}

// The byte is the tag of no field that has a place.
#[derive(Clone, Copy, Debug, PartialEq, Eq)]
pub struct NoTag;

impl TryFrom<u8> for Tag {
    ghost use Rattle.card.specs.Grammar.{tag_of, place_of};

    type Error = NoTag;

    ghost try_from_gives = { λ byte r. place_of r ≡ tag_of byte };

    fn try_from(byte: u8) -> Result<Tag, NoTag> {
        match byte {
            0x01 => Ok(Tag::Head),
            0x02 => Ok(Tag::Roles),
            0x03 => Ok(Tag::Record),
            0x04 => Ok(Tag::Directive),
            _ => Err(NoTag),
        }
    }
}

// How many bytes a head has.
pub const HEAD_SIZE: usize = 7;

#[derive(Clone, Copy)]
pub struct Head {
    // any number that the byte holds: those of `Edition` alone keep the range
    pub edition: u8,
    pub patient: u16,
    pub clock: u32,
}

impl Head {
    // The head that seven bytes write.
    pub fn from_bytes(s: &[u8]) -> Head
        requires { head_size ≤ length s.now }
        ensures { result ≡ head_of s.now }
    {
        Head {
            edition: u8::get(s, 0),
            patient: u16::get(s, 1),
            clock: u32::get(s, 3),
        }
    }

    // Writes the head's seven bytes from place `at` on; a place for the reason in `sets::number`.
    pub fn put(self, s: &mut [u8], at: usize)
        requires { at + head_size ≤ length s.old }
        ensures { s.new ≡ sets s.old at (head_bytes self) }
    {
        self.edition.put(s, at);
        self.patient.put(s, at + 1);
        self.clock.put(s, at + 3);
    }
}

#[derive(Clone, Copy, Debug, PartialEq, Eq)]
pub enum Edition {
    First = 1,
    Second = 2,
}

// The edition of a number; question 4 where there is none.
impl TryFrom<u8> for Edition {
    ghost use Rattle.card.specs.Form.{edition_of};

    type Error = OutOfRange;

    ghost try_from_gives = { λ number r. r ≡ edition_of number };

    fn try_from(number: u8) -> Result<Edition, OutOfRange> {
        match number {
            1 => Ok(Edition::First),
            2 => Ok(Edition::Second),
            _ => Err(OutOfRange),
        }
    }
}
