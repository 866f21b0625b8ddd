// Reading a card, field by field: each field's value is handed on as that part of the card.
ghost use Rattle.std.specs.Prelude.{◌≡◌, ◌&&◌, true, not, length, nat_lt};
ghost use Rattle.ledger.specs.State.{view};
ghost use Rattle.card.specs.Grammar.{head, roles, item, directive, tag_of, place};
ghost use Rattle.card.specs.Reading.{has_place, is_empty, directive_size, directive_draft};
ghost use Rattle.card.specs.Promises.{read_result, Reads};
ghost use Rattle.card_reading.specs.Reader.{edition_read, progress, Takes};

use card::ReadRefusal;
use card::form::{Edition, Head, Tag};
use drafts::Draft;
use ledger::Ledger;
use register::Record;

// What was read so far: the edition, none before the head, and the ledger.
#[derive(Clone, Copy)]
pub struct Reader {
    pub edition: Option<Edition>,
    pub ledger: Ledger,
}

// The length of a directive in an edition.
fn directive_size(edition: Option<Edition>) -> usize
    ensures { result ≡ directive_size (edition_read edition) }
{
    match edition {
        Some(Edition::First) => drafts::FIRST_EDITION_SIZE,
        _ => drafts::SIZE,
    }
}

// The numbers of a directive in an edition.
fn directive_draft(edition: Option<Edition>, v: &[u8]) -> Draft
    requires { length v.now ≡ directive_size (edition_read edition) }
    ensures { result ≡ directive_draft (edition_read edition) v.now }
{
    match edition {
        Some(Edition::First) => Draft::from_first_edition(v),
        _ => Draft::from_bytes(v),
    }
}

impl Reader {
    // Question 2: whether a field of this tag and length has its place.
    fn has_place(&self, tag: Tag, size: usize) -> bool
        ensures { result ≡ has_place (progress self.now) (place tag) size }
    {
        let register = self.ledger.register();
        match tag {
            Tag::Head => self.edition.is_none() && size == card::form::HEAD_SIZE,
            Tag::Roles => {
                self.edition.is_some()
                    && register.roles().is_empty()
                    && 1 <= size
                    && size <= register::ROLES
            }
            Tag::Record => {
                !register.roles().is_empty() && self.ledger.active().len() == 0 && size == 10
            }
            Tag::Directive => {
                !register.records().is_empty() && size == directive_size(self.edition)
            }
        }
    }

    // The four kinds of fields: a value that has its place is taken where it passes the questions after 2.
    fn read_head(&mut self, v: &[u8]) -> Result<(), ReadRefusal>
        requires { has_place (progress self.old) head (length v.now) ≡ true }
        ensures { Takes self.old head v.now result self.new }
    {
        let head = Head::from_bytes(v);
        let edition = Edition::try_from(head.edition)?;
        self.edition = Some(edition);
        self.ledger = Ledger::begin(head.patient, head.clock);
        Ok(())
    }

    fn read_roles(&mut self, v: &[u8]) -> Result<(), ReadRefusal>
        requires { has_place (progress self.old) roles (length v.now) ≡ true }
        ensures { Takes self.old roles v.now result self.new }
    {
        self.ledger.enrol_roles(v)?;
        Ok(())
    }

    fn read_record(&mut self, v: &[u8]) -> Result<(), ReadRefusal>
        requires { has_place (progress self.old) item (length v.now) ≡ true }
        ensures { Takes self.old item v.now result self.new }
    {
        if register::RECORDS <= self.ledger.register().records().len() {
            return Err(ReadRefusal::TooManyRecords);
        }
        self.ledger.enrol_record(Record::from_bytes(v))?;
        Ok(())
    }

    fn read_directive(&mut self, v: &[u8]) -> Result<(), ReadRefusal>
        requires { has_place (progress self.old) directive (length v.now) ≡ true }
        ensures { Takes self.old directive v.now result self.new }
    {
        self.ledger.admit(directive_draft(self.edition, v))?;
        Ok(())
    }

    // A field that stands whole: its tag and its value. The tag is any byte until question 2 is put to it.
    fn read_field(&mut self, tag: u8, v: &[u8]) -> Result<(), ReadRefusal>
        ensures { Takes self.old (tag_of tag) v.now result self.new }
    {
        let tag = Tag::try_from(tag)?;
        if !self.has_place(tag, v.len()) {
            return Err(ReadRefusal::Misplaced);
        }
        match tag {
            Tag::Head => self.read_head(v),
            Tag::Roles => self.read_roles(v),
            Tag::Record => self.read_record(v),
            Tag::Directive => self.read_directive(v),
        }
    }

    // Question 5.
    fn is_complete(&self) -> bool
        ensures { result ≡ nat_lt 0 (edition_read self.now.edition) && not (is_empty (view self.now.ledger).register.roles) && not (is_empty (view self.now.ledger).register.records) }
    {
        let register = self.ledger.register();
        self.edition.is_some() && !register.roles().is_empty() && !register.records().is_empty()
    }
}

// The ledger of a card, or the first question that it misses.
pub fn read(card: &[u8]) -> Result<Ledger, ReadRefusal>
    ensures { Reads card.now (read_result result) }
{
    let mut reader = Reader {
        edition: None,
        ledger: Ledger::empty(),
    };
    let mut rest = card;
    while let [tag, high, low, after @ ..] = rest {
        let size = usize::from(u16::from_be_bytes([*high, *low]));
        if after.len() < size {
            return Err(ReadRefusal::NotWhole);
        }
        let (value, next) = after.split_at(size);
        reader.read_field(*tag, value)?;
        rest = next;
    }
    if !rest.is_empty() {
        return Err(ReadRefusal::NotWhole);
    }
    if !reader.is_complete() {
        return Err(ReadRefusal::Incomplete);
    }
    Ok(reader.ledger)
}
