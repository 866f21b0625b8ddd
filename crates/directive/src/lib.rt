// Directives and requests.
#![tactic(auto)]

ghost use Rattle.std.specs.Prelude.{◌≡◌};
ghost use Rattle.directive.specs.Matching.{query_on, is_role, number_of, subject_named};

use register::records::Reach;

pub mod lowest;
pub mod matching;
pub mod selection;

// One person, or one role with all roles that it covers.
#[derive(Clone, Copy)]
pub enum Subject {
    Person(u16),
    Role(u16),
}

impl Subject {
    // The role or the person of that number: a kind and a number, as drafts and stored ledgers give them.
    pub fn named(is_role: bool, number: u16) -> Subject
        ensures { result ≡ subject_named is_role number }
    {
        if is_role {
            Subject::Role(number)
        } else {
            Subject::Person(number)
        }
    }

    pub fn is_role(self) -> bool
        ensures { result ≡ is_role self }
    {
        matches!(self, Subject::Role(_))
    }

    // The number of the person or the role.
    pub fn number(self) -> u16
        ensures { result ≡ number_of self }
    {
        match self {
            Subject::Person(n) | Subject::Role(n) => n,
        }
    }
}

#[derive(Clone, Copy)]
pub struct Directive {
    pub number: u16,
    // the effect: permit, or deny
    pub permit: bool,
    pub subject: Subject,
    pub subject_origins: u16,
    pub record: u8,
    pub reach: Reach,
    // the filtration sets; document 01: po, ps, pt
    pub origins: u16,
    pub sensitivities: u16,
    pub kinds: u8,
    pub purposes: u16,
    pub from: u32,
    pub until: u32,
}

// Who asks, in which role, from where and what for.
#[derive(Clone, Copy)]
pub struct Requester {
    pub person: u16,
    pub role: u16,
    pub origin: u8,
    pub purpose: u8,
}

// A requester and the record asked for: a request without its minute.
#[derive(Clone, Copy)]
pub struct Query {
    pub requester: Requester,
    pub record: u8,
}

#[derive(Clone, Copy)]
pub struct Request {
    pub query: Query,
    pub minute: u32,
}

impl Requester {
    // The requester's query for record x.
    pub fn query_on(self, x: u8) -> Query
        ensures { result ≡ query_on self x }
    {
        Query {
            requester: self,
            record: x,
        }
    }
}

// What fills a place that holds no directive; by hand, since a derive takes no variant with a value as the default.
impl Default for Directive {
    ghost use Rattle.directive.specs.Nothing.{no_directive};

    ghost is_default = { λ d. d ≡ no_directive };

    fn default() -> Directive {
        Directive {
            number: 0,
            permit: false,
            subject: Subject::Person(0),
            subject_origins: 0,
            record: 0,
            reach: Reach::Itself,
            origins: 0,
            sensitivities: 0,
            kinds: 0,
            purposes: 0,
            from: 0,
            until: 0,
        }
    }
}
