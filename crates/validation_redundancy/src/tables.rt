// The tables of the search: the masks of the values that a draft has, and those of its boundary minutes.
ghost use Rattle.std.specs.Prelude.{◌≡◌, ◌+◌, ◌<◌, ◌≤◌, ◌++◌, ◌∷◌, [], ℕ, map, slice_index_or};
ghost use Rattle.sets.specs.Quantifiers.{keep, pick};
ghost use Rattle.sets.specs.Bits.{bit};
ghost use Rattle.directive.specs.Matching.{in_minutes};
ghost use Rattle.active.specs.Active.{entries_of};
ghost use Rattle.validation_meaning.specs.Search.{start};
ghost use Rattle.validation_redundancy.specs.Masks.{minute_mask, boundaries_of, masks_of};

use crate::masks::minute_mask;
use active::ActiveList;
use directive::Directive;
use sets::bits;
use validation_conflict::minutes::{first_minute, within};

// How many boundary minutes there can be: the first, and the end of each active directive.
const BOUNDARIES: usize = active::PLACES + 1;

// The masks at the boundary minutes that a draft spans; an array and a count, since nothing is allocated. With an `ArrayVec` the compiler
// sees no bound on the length of the search's inner loop, and a worst commit takes 8.8 million instructions in place of 7.5.
#[derive(Clone, Copy)]
pub struct Minutes {
    pub masks: [u32; BOUNDARIES],
    pub count: usize,
}

// The masks at the values of each dimension but the record, for a draft: roles are those of the person who stands for its subject. Arrays,
// since a value is a place in them and nothing is allocated.
#[derive(Clone, Copy)]
pub struct Tables {
    pub by_origin: [u32; 16],
    pub by_purpose: [u32; 16],
    pub roles: u16,
    pub by_role: [u32; 16],
    pub minutes: Minutes,
}

// The masks of the numbers in the set; 0 for the others.
pub fn table<F: Fn(u8) -> u32>(set: u16, mask: F) -> [u32; 16]
    requires { F.IsAlwaysCallable mask }
    ensures { (f : ℕ → ℕ) → ((k : ℕ) (m : ℕ) → F.post mask k m → m ≡ f k) → (k : ℕ) → k < 16 → slice_index_or result k 0 ≡ pick (bit k set) (f k) 0 }
{
    let mut table = [0u32; 16];
    // Over numbers: each is asked of the set and of the closure, and is a place of the table. A `zip` of the numbers with `iter_mut` has no
    // conversion, but nothing is known of the table after such a loop, and the promise is not proved.
    for k in 0..16u8 {
        if bits::has(set, k) {
            table[usize::from(k)] = mask(k);
        }
    }
    table
}

impl Minutes {
    pub fn as_slice(&self) -> &[u32]
        ensures { result.now ≡ masks_of self.now }
    {
        &self.masks[..self.count.min(BOUNDARIES)]
    }

    // Puts one mask more last.
    fn push(&mut self, mask: u32)
        requires { self.old.count < BOUNDARIES }
        ensures count { self.new.count ≡ self.old.count + 1 }
        ensures masks { masks_of self.new ≡ masks_of self.old ++ (mask ∷ []) }
    {
        self.masks[self.count] = mask;
        self.count += 1;
    }
}

// The masks at the boundary minutes that the draft d spans: where it starts, and where the active directives end.
pub fn minutes_of(clock: u32, d: &Directive, list: &ActiveList) -> Minutes
    ensures few { result.count ≤ BOUNDARIES }
    ensures masks { masks_of result ≡ map (minute_mask (entries_of list.now)) (keep (in_minutes (start clock d.now) d.now.until) (boundaries_of (start clock d.now) (entries_of list.now))) }
{
    let first = first_minute(d, clock);
    let masks = [0u32; BOUNDARIES];
    let mut minutes = Minutes { masks, count: 0 };
    if within(first, d.until, first) {
        minutes.push(minute_mask(list, first));
    }
    for a in list.as_slice() {
        let minute = a.directive.until;
        if within(first, d.until, minute) {
            minutes.push(minute_mask(list, minute));
        }
    }
    minutes
}
