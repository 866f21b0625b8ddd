// What changes an active list.
ghost use Rattle.std.specs.Prelude.{◌≡◌, ◌<◌, Bool};
ghost use Rattle.directive.specs.declared.Directive.{Directive as Given};
ghost use Rattle.directive.specs.Places.{active_places};
ghost use Rattle.active.specs.Changes.{Pushed, Keeps};

use crate::{Active, ActiveList};
use directive::Directive;
use sets::compact;

impl ActiveList {
    // Puts one entry more last.
    pub fn push(&mut self, a: Active)
        requires { self.old.count < active_places }
        ensures { Pushed self.old a self.new }
    {
        self.entries[self.count] = a;
        self.count += 1;
    }

    // Keeps the directives that pass the test, in their order.
    pub fn retain<F: Fn(Directive) -> bool>(&mut self, test: F)
        requires { F.IsAlwaysCallable test }
        ensures { (p : Given → Bool) → ((d : Given) (b : Bool) → F.post test d b → b ≡ p d) → Keeps p self.old self.new }
    {
        let n = self.len();
        self.count = compact::retain(&mut self.entries[..n], |a: Active| test(a.directive));
    }
}
