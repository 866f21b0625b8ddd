// The directive of lowest number, of those met one after the other.
ghost use Rattle.std.specs.Prelude.{◌≡◌, Bool, List, [], ◌∷◌, ◌++◌, map, Option, Some};
ghost use Rattle.std.specs.Bool.{then_some};
ghost use Rattle.std.specs.List.{Contains};
ghost use Rattle.sets.specs.Quantifiers.{keep};
ghost use Rattle.directive.specs.declared.Directive.{Directive as Met};
ghost use Rattle.directive.specs.declared.lowest.Best.{Best as Lowest};
ghost use Rattle.directive.specs.Lowest.{best_in, best_of};

use crate::Directive;

// The effect and the number of a directive.
#[derive(Clone, Copy)]
pub struct Best {
    pub permit: bool,
    pub number: u16,
}

impl Best {
    pub fn of(d: &Directive) -> Best
        ensures { result ≡ best_in d.now }
    {
        Best {
            permit: d.permit,
            number: d.number,
        }
    }
}

// The lowest of those met so far and of the next.
#[tactic(auto, using(crate::proofs::LowestLaws::best_first))]
fn lower(best: Option<Best>, next: Best) -> Best
    ensures { (ds : List Met) (d : Met) → best ≡ best_of ds → next ≡ best_in d → Some result ≡ best_of (ds ++ (d ∷ [])) }
{
    match best {
        None => next,
        Some(lowest) => if next.number < lowest.number {
            next
        } else {
            lowest
        },
    }
}

// The lowest of the items' directives that pass a test. `met` tests an item's directive, and answers its effect and number where it passes.
pub fn lowest_met<T, F: Fn(&T) -> Option<Best>>(items: &[T], met: F) -> Option<Best>
    requires { F.IsAlwaysCallable met }
    ensures { (d : T → Met) (p : Met → Bool) → ((x : _) (r : Option Lowest) → Contains items.now x.now → F.post met x r → r ≡ then_some (p (d x.now)) (best_in (d x.now))) → result ≡ best_of (keep p (map d items.now)) }
{
    let mut best = None;
    for x in items {
        if let Some(next) = met(x) {
            best = Some(lower(best, next));
        }
    }
    best
}
