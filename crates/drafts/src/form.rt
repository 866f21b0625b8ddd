// The bytes of a directive: ranges, decoding and encoding.
ghost use Rattle.std.specs.Prelude.{◌≡◌, ◌+◌, ◌≤◌, length};
ghost use Rattle.std.proofs.lemmas.List.Edits.{sets};
ghost use Rattle.drafts.specs.Form.{draft_size, first_edition_size, numbers_of, draft_of, with_purposes, keeps_ranges, directive_of, directive_bytes};

use crate::{Draft, OutOfRange};
use directive::{Directive, Subject};
use register::LAST_REACH;
use register::records::Reach;
use sets::bits;
use sets::number::BigEndian;

// The set of all purposes.
const EVERY_PURPOSE: u16 = 0x07FF;

// The numbers of a directive's bytes, with these purposes, and with from and until at the place `minutes`.
fn numbers_of(s: &[u8], purposes: u16, minutes: usize) -> Draft
    requires { (15 ≤ minutes) × (minutes + 8 ≤ length s.now) }
    ensures { result ≡ numbers_of purposes minutes s.now }
{
    Draft {
        number: u16::get(s, 0),
        effect: u8::get(s, 2),
        subject_kind: u8::get(s, 3),
        subject: u16::get(s, 4),
        subject_origins: u16::get(s, 6),
        record: u8::get(s, 8),
        reach: u8::get(s, 9),
        origins: u16::get(s, 10),
        sensitivities: u16::get(s, 12),
        kinds: u8::get(s, 14),
        purposes,
        from: u32::get(s, minutes),
        until: u32::get(s, minutes + 4),
    }
}

impl Draft {
    // The numbers of the 25 bytes of edition 2 and of a draft.
    pub fn from_bytes(s: &[u8]) -> Draft
        requires { draft_size ≤ length s.now }
        ensures { result ≡ draft_of s.now }
    {
        numbers_of(s, u16::get(s, 15), 17)
    }

    // The numbers that the 23 bytes of edition 1 mean.
    pub fn from_first_edition(s: &[u8]) -> Draft
        requires { length s.now ≡ first_edition_size }
        ensures { result ≡ draft_of (with_purposes s.now) }
    {
        numbers_of(s, EVERY_PURPOSE, 15)
    }

    // Whether the numbers keep the ranges of question 7.
    #[tactic(auto, unfolding(crate::specs::Form::keeps_ranges))]
    pub fn keeps_ranges(&self) -> bool
        ensures { result ≡ keeps_ranges self.now }
    {
        self.effect <= 1
            && self.subject_kind <= 1
            && self.reach <= LAST_REACH
            && 0 < self.subject_origins
            && 0 < self.origins
            && 0 < self.sensitivities
            && 0 < self.kinds
            && 0 < self.purposes
            && bits::within(self.purposes, EVERY_PURPOSE)
    }

    // The directive that its numbers mean where they keep the ranges; `try_from` asks that first.
    #[tactic(auto, unfolding(crate::specs::Form::directive_of))]
    pub fn directive(self) -> Directive
        ensures { result ≡ directive_of self }
    {
        Directive {
            number: self.number,
            permit: self.effect == 1,
            subject: Subject::named(self.subject_kind == 1, self.subject),
            subject_origins: self.subject_origins,
            record: self.record,
            reach: Reach::from(self.reach),
            origins: self.origins,
            sensitivities: self.sensitivities,
            kinds: self.kinds,
            purposes: self.purposes,
            from: self.from,
            until: self.until,
        }
    }
}

// The directive that a draft within the ranges means; a draft out of them means none.
impl TryFrom<Draft> for Directive {
    ghost use Rattle.drafts.specs.Form.{meaning_of};

    type Error = OutOfRange;

    ghost try_from_gives = { λ d r. r ≡ meaning_of d };

    fn try_from(d: Draft) -> Result<Directive, OutOfRange> {
        if !d.keeps_ranges() {
            return Err(OutOfRange);
        }
        Ok(d.directive())
    }
}

// Writes the directive's 25 bytes from place `at` on; a place for the reason in `sets::number`.
pub fn put_directive(s: &mut [u8], at: usize, d: &Directive)
    requires { at + draft_size ≤ length s.old }
    ensures { s.new ≡ sets s.old at (directive_bytes d.now) }
{
    d.number.put(s, at);
    u8::from(d.permit).put(s, at + 2);
    u8::from(d.subject.is_role()).put(s, at + 3);
    d.subject.number().put(s, at + 4);
    d.subject_origins.put(s, at + 6);
    d.record.put(s, at + 8);
    u8::from(d.reach).put(s, at + 9);
    d.origins.put(s, at + 10);
    d.sensitivities.put(s, at + 12);
    d.kinds.put(s, at + 14);
    d.purposes.put(s, at + 15);
    d.from.put(s, at + 17);
    d.until.put(s, at + 21);
}
