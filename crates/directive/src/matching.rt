// When a directive matches a request.
ghost use Rattle.std.specs.Prelude.{◌≡◌, List};
ghost use Rattle.register.specs.declared.Record.{Record as Held};
ghost use Rattle.register.specs.Register.{holding};
ghost use Rattle.directive.specs.Selection.{selects};
ghost use Rattle.directive.specs.Matching.{subject_covers, matches, request_at};

use crate::{Directive, Query, Request, Subject};
use register::roles;
use sets::bits;

impl Subject {
    // Whether it covers the person in the role; `parents` has the parents of the roles.
    pub fn covers(self, parents: &[u8], person: u16, role: u16) -> bool
        ensures { result ≡ subject_covers parents.now self person role }
    {
        match self {
            Subject::Person(n) => n == person,
            Subject::Role(n) => roles::covers(parents, n, role),
        }
    }
}

impl Directive {
    // Whether it matches the request; `selected` tells whether it selects the record asked for.
    #[tactic(auto, unfolding(crate::specs::Matching::matches, crate::specs::Matching::applies_to))]
    pub fn matches(&self, parents: &[u8], q: Request, selected: bool) -> bool
        ensures { (rs : List Held) → selected ≡ selects rs self.now q.query.«record» → result ≡ matches (holding parents.now rs) self.now q }
    {
        let w = q.query.requester;
        selected
            && self.from <= q.minute
            && q.minute < self.until
            && bits::has(self.subject_origins, w.origin)
            && bits::has(self.purposes, w.purpose)
            && self.subject.covers(parents, w.person, w.role)
    }
}

impl Query {
    // The request that the query is at the minute.
    pub fn at(self, minute: u32) -> Request
        ensures { result ≡ request_at self minute }
    {
        Request {
            query: self,
            minute,
        }
    }
}
