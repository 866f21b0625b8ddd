// What is found in an active list.
ghost use Rattle.std.specs.Prelude.{◌≡◌, List, [], ◌∷◌, ◌++◌, ◌≤◌, length, nat_eq};
ghost use Rattle.sets.specs.Quantifiers.{some_in, keep};
ghost use Rattle.sets.specs.RecordSets.{record_set_of};
ghost use Rattle.register.specs.declared.Record.{Record as Held};
ghost use Rattle.register.specs.Register.{record_places, holding};
ghost use Rattle.directive.specs.declared.Directive.{Directive as Given};
ghost use Rattle.directive.specs.Selection.{selects};
ghost use Rattle.directive.specs.Matching.{matches};
ghost use Rattle.directive.specs.Lowest.{best_of};
ghost use Rattle.active.specs.Active.{directives_of, ActiveInvariant};

use crate::ActiveList;
use directive::Request;
use directive::lowest::{self, Best};
use sets::record_set::RecordSet;

impl ActiveList {
    // Whether the directive of that number is active.
    pub fn has_number(&self, number: u16) -> bool
        ensures { result ≡ some_in (λ d. nat_eq d.number number) (directives_of self.now) }
    {
        for a in self.as_slice() {
            if a.directive.number == number {
                return true;
            }
        }
        false
    }

    // The records that the last directive selects; free where the list is empty or does not keep its invariant.
    pub fn last_selection(&self) -> RecordSet
        ensures { (rs : List Held) (ds : List Given) (d : Given) → ActiveInvariant rs self.now → directives_of self.now ≡ ds ++ (d ∷ []) → result ≡ record_set_of (selects rs d) }
    {
        match self.as_slice().last() {
            Some(last) => last.selected,
            None => RecordSet::empty(),
        }
    }

    // The lowest of the directives that match the request.
    pub fn lowest_match(&self, parents: &[u8], q: Request) -> Option<Best>
        ensures { (rs : List Held) → length rs ≤ record_places → ActiveInvariant rs self.now → result ≡ best_of (keep (λ d. matches (holding parents.now rs) d q) (directives_of self.now)) }
    {
        lowest::lowest_met(
            self.as_slice(),
            |a| a.matches(parents, q).then_some(Best::of(&a.directive)),
        )
    }
}
