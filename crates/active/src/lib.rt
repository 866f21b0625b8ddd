// The active directives of a ledger, each with the set of the records that it selects, which is computed once.
#![tactic(auto)]

ghost use Rattle.std.specs.Prelude.{◌≡◌, ◌≤◌, List, [], ◌∷◌, ◌++◌, length, min};
ghost use Rattle.register.specs.declared.Record.{Record as Held};
ghost use Rattle.register.specs.Register.{record_places, contents, holding};
ghost use Rattle.directive.specs.Places.{active_places};
ghost use Rattle.directive.specs.Matching.{matches};
ghost use Rattle.active.specs.Active.{active_in, empty_list, entries_of, directives_of};

use directive::{Directive, Request};
use register::Register;
use sets::record_set::RecordSet;

pub mod changes;
pub mod finds;

// How many directives can be active.
pub const PLACES: usize = 32;

// The set is that of `active_in`, as the promises say: a ghost field cannot name the register that the entry belongs to.
#[derive(Clone, Copy)]
pub struct Active {
    pub directive: Directive,
    pub selected: RecordSet,
}

impl Active {
    // A directive with the records of the register that it selects.
    pub fn new(register: &Register, directive: Directive) -> Active
        ensures { result ≡ active_in (contents register.now).records directive }
    {
        Active {
            directive,
            selected: directive.selected(register),
        }
    }

    // Whether the directive matches the request: the kept set tells whether it selects the record.
    pub fn matches(&self, parents: &[u8], q: Request) -> bool
        ensures { (rs : List Held) → length rs ≤ record_places → self.now ≡ active_in rs self.now.directive → result ≡ matches (holding parents.now rs) self.now.directive q }
    {
        let selected = self.selected.contains(usize::from(q.query.record));
        self.directive.matches(parents, q, selected)
    }
}

// The active directives in their order; what stands past the count has no meaning. An array and a count, since a ledger is copied whole and
// nothing is allocated; `as_slice` answers them. Not one type with the list of tokens: it would be of a crate below, where neither can have
// its own methods; and no `ArrayVec`, which is not `Copy`.
#[derive(Clone, Copy)]
pub struct ActiveList {
    pub entries: [Active; PLACES],
    pub count: usize,
}

impl ActiveList {
    #[tactic(auto, unfolding(crate::specs::Active::empty_list))]
    pub fn empty() -> ActiveList
        ensures { result ≡ empty_list }
    {
        let none = Active {
            directive: Directive::default(),
            selected: RecordSet { low: 0, high: 0 },
        };
        let entries = [none; PLACES];
        ActiveList {
            entries: entries,
            count: 0,
        }
    }

    // The entries that count, in their order.
    pub fn as_slice(&self) -> &[Active]
        ensures value { result.now ≡ entries_of self.now }
        ensures few { length result.now ≤ active_places }
    {
        &self.entries[..self.len()]
    }

    // How many directives are active.
    pub fn len(&self) -> usize
        ensures value { result ≡ length (directives_of self.now) }
        ensures counted { result ≡ min self.now.count active_places }
    {
        self.count.min(PLACES)
    }
}
