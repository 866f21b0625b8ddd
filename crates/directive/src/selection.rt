// Which records a directive selects.
ghost use Rattle.std.specs.Prelude.{◌≡◌, ◌&&◌, ◌||◌, nat_eq, nat_lt};
ghost use Rattle.sets.specs.RecordSets.{contains, record_set_of};
ghost use Rattle.register.specs.Register.{contents};
ghost use Rattle.register.specs.Records.{reach_takes};
ghost use Rattle.directive.specs.Selection.{passes_filters, selects};

use crate::Directive;
use register::{Record, Register, records};
use sets::bits;
use sets::record_set::RecordSet;

// Whether x, in whose place for the parent p stands, is a descendant of r, where `below` has r's descendants before x.
fn is_below(below: RecordSet, r: usize, p: usize, x: usize) -> bool
    ensures { result ≡ nat_lt p x && (nat_eq r p || contains below p) }
{
    p < x && (r == p || below.contains(p))
}

impl Directive {
    // Whether a record passes the three filtration sets.
    #[tactic(auto, unfolding(crate::specs::Selection::passes_filters))]
    pub fn passes_filters(&self, r: &Record) -> bool
        ensures { result ≡ passes_filters r.now self.now }
    {
        bits::within(r.origins, self.origins)
            && bits::within(r.sensitivities, self.sensitivities)
            && bits::has(u16::from(self.kinds), r.kind)
    }

    // Whether it selects record r, which is the record of the directive or not, a child of it, a descendant.
    fn takes(&self, r: &Record, itself: bool, child: bool, descendant: bool) -> bool
        ensures { result ≡ reach_takes self.now.reach itself child descendant && passes_filters r.now self.now }
    {
        self.reach.takes(itself, child, descendant) && self.passes_filters(r)
    }

    // The records that it selects, in one pass: a record's parent has the lower number.
    pub fn selected(&self, register: &Register) -> RecordSet
        ensures { result ≡ record_set_of (selects (contents register.now).records self.now) }
    {
        let root = usize::from(self.record);
        let mut below = RecordSet::empty();
        let mut chosen = RecordSet::empty();
        for (x, r) in register.records().iter().enumerate() {
            let p = usize::from(r.parent);
            let descendant = is_below(below, root, p, x);
            let child = records::is_parent(root, p, x);
            let takes = self.takes(r, root == x, child, descendant);
            below = below.with_where(x, descendant);
            chosen = chosen.with_where(x, takes);
        }
        chosen
    }
}
