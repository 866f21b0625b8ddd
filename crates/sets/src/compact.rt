// What is kept of a list, in place.
ghost use Rattle.std.specs.Prelude.{◌≡◌, ◌≤◌, Bool, length, take};
ghost use Rattle.sets.specs.Quantifiers.{keep};

// Moves the items that pass the test to the front, in their order, and answers how many they are. What stands after them is free.
pub fn retain<T: Copy, F: Fn(T) -> bool>(items: &mut [T], test: F) -> usize
    requires { F.IsAlwaysCallable test }
    ensures few { result ≤ length items.old }
    ensures kept { (p : T → Bool) → ((x : T) (b : Bool) → F.post test x b → b ≡ p x) → take result items.new ≡ keep p items.old }
{
    let mut at = 0;
    // by index: one slice is read at one place and written at another
    for i in 0..items.len() {
        let item = items[i];
        items[at] = item;
        if test(item) {
            at += 1;
        }
    }
    at
}
