// Writing a card: edition 2, with patient, clock, register and active directives. The buffer is the caller's, and the promise is about
// all of it: each part is written at its place, as in `sets::number`. `as`: of an enum its discriminant, of a length one that is proved to fit.
ghost use Rattle.std.specs.Prelude.{◌≡◌, ℕ, List, ◌∷◌, ◌+◌, ◌*◌, ◌≤◌, length};
ghost use Rattle.std.proofs.lemmas.List.Edits.{sets};
ghost use Rattle.sets.specs.Numbers.{bytes};
ghost use Rattle.sets.proofs.PutLaws.{OneEach};
ghost use Rattle.register.specs.Register.{role_places};
ghost use Rattle.card.specs.Grammar.{field};
ghost use Rattle.card.specs.Promises.{Writes};

use active::Active;
use card::WriteRefusal;
use card::form::{Edition, Head, Tag};
use ledger::Ledger;
use register::Record;
use sets::number::BigEndian;

// What has a field of its own, with a value of fixed length.
trait Value {
    ghost TAG: { ℕ };

    ghost SIZE: { ℕ };

    ghost bytes: { Self → List ℕ };

    // the number that is written
    const TAG: u8;

    const SIZE: u16;

    // Writes the value from place `at` on.
    fn put_value(&self, s: &mut [u8], at: usize)
        requires { at + SIZE ≤ length s.old }
        ensures { s.new ≡ sets s.old at (bytes self.now) };

    ghost sized: { (v : Self) → length (bytes v) ≡ SIZE };
}

impl Value for Head {
    ghost use Rattle.card.specs.Form.{head_size, head_bytes};
    ghost use Rattle.card.proofs.FormLaws.{length_head};

    ghost TAG = { 0x01 };

    ghost SIZE = { head_size };

    ghost bytes = { head_bytes };

    const TAG: u8 = Tag::Head as u8;

    const SIZE: u16 = card::form::HEAD_SIZE as u16;

    ghost sized = { length_head };

    fn put_value(&self, s: &mut [u8], at: usize) {
        self.put(s, at);
    }
}

impl Value for Record {
    ghost use Rattle.register.specs.Form.{record_size, record_bytes};
    ghost use Rattle.register.proofs.FormLaws.{length_record};

    ghost TAG = { 0x03 };

    ghost SIZE = { record_size };

    ghost bytes = { record_bytes };

    const TAG: u8 = Tag::Record as u8;

    const SIZE: u16 = register::RECORD_SIZE as u16;

    ghost sized = { length_record };

    fn put_value(&self, s: &mut [u8], at: usize) {
        self.put(s, at);
    }
}

// Its directive alone is written.
impl Value for Active {
    ghost use Rattle.drafts.specs.Form.{draft_size, directive_bytes};
    ghost use Rattle.drafts.proofs.FormLaws.{length_directive};

    ghost TAG = { 0x04 };

    ghost SIZE = { draft_size };

    ghost bytes = { λ a. directive_bytes a.directive };

    const TAG: u8 = Tag::Directive as u8;

    const SIZE: u16 = drafts::SIZE as u16;

    ghost sized = { λ a. length_directive a.directive };

    fn put_value(&self, s: &mut [u8], at: usize) {
        drafts::form::put_directive(s, at, &self.directive);
    }
}

// A field's tag and the length of its value.
fn put_tag(s: &mut [u8], at: usize, tag: u8, size: u16)
    requires { at + 3 ≤ length s.old }
    ensures { s.new ≡ sets s.old at (tag ∷ bytes 2 size) }
{
    tag.put(s, at);
    size.put(s, at + 1);
}

// The field of a value, from place `at` on.
fn put_field<V: Value>(s: &mut [u8], at: usize, v: &V)
    requires { at + (3 + V.SIZE) ≤ length s.old }
    ensures { s.new ≡ sets s.old at (field V.TAG (V.bytes v.now)) }
{
    put_tag(s, at, V::TAG, V::SIZE);
    v.put_value(s, at + 3);
}

// A field for each value, in order.
fn put_fields<V: Value>(s: &mut [u8], at: usize, values: &[V])
    requires { at + (3 + V.SIZE) * length values.now ≤ length s.old }
    ensures { (fields : List V → List ℕ) → OneEach fields (λ v. field V.TAG (V.bytes v)) → s.new ≡ sets s.old at (fields values.now) }
{
    for (i, v) in values.iter().enumerate() {
        put_field(s, at + (3 + usize::from(V::SIZE)) * i, v);
    }
}

// The field of the roles: the parent of each.
fn put_roles_field(s: &mut [u8], at: usize, parents: &[u8])
    requires { (length parents.now ≤ role_places) × (at + (3 + length parents.now) ≤ length s.old) }
    ensures { s.new ≡ sets s.old at (field 0x02 parents.now) }
{
    let n = parents.len();
    put_tag(s, at, Tag::Roles as u8, n as u16);
    s[at + 3..at + 3 + n].copy_from_slice(parents);
}

// The card of the ledger, in the first bytes of the buffer: how many they are.
pub fn write(ledger: &Ledger, buffer: &mut [u8]) -> Result<usize, WriteRefusal>
    ensures { Writes ledger.now buffer.old result buffer.new }
{
    let roles = ledger.register().roles();
    let records = ledger.register().records();
    let active = ledger.active().as_slice();
    if records.is_empty() {
        return Err(WriteRefusal::NoRecord);
    }
    // each field has three bytes before its value
    let at_records = 13 + roles.len();
    let at_directives = at_records + 13 * records.len();
    let size = at_directives + 28 * active.len();
    if buffer.len() < size {
        return Err(WriteRefusal::BufferTooShort);
    }
    let head = Head {
        edition: Edition::Second as u8,
        patient: ledger.patient(),
        clock: ledger.clock(),
    };
    put_field(buffer, 0, &head);
    put_roles_field(buffer, 10, roles);
    put_fields(buffer, at_records, records);
    put_fields(buffer, at_directives, active);
    Ok(size)
}
