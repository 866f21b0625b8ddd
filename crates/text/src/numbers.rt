// The numbers of a line.
ghost use Rattle.std.specs.Prelude.{◌≡◌, ◌∷◌, ◌+◌, ◌++◌, ◌≤◌, length};
ghost use Rattle.text.specs.Text.{decimal, blank, numbers_text};

use crate::Text;

impl<const N: usize> Text<N> {
    // A number after another: a blank and its digits.
    fn push_next(&mut self, n: u64)
        requires { length self.old + 21 ≤ N }
        ensures text { self.new ≡ self.old ++ blank ∷ decimal n }
        ensures growth { length self.new ≤ length self.old + 21 }
    {
        self.push_bytes(b" ");
        self.push_decimal(n);
    }

    // Appends at most four numbers, one blank between: no line has more, and so its room is a number. Four numbers of 20 digits and three
    // blanks have room.
    pub fn push_numbers(&mut self, numbers: &[u64])
        requires at_most_four { length numbers.now ≤ 4 }
        requires room { length self.old + 83 ≤ N }
        ensures text { self.new ≡ self.old ++ numbers_text numbers.now }
        ensures growth { length self.new ≤ length self.old + 83 }
    {
        let [first, rest @ ..] = numbers else {
            return;
        };
        self.push_decimal(*first);
        for n in rest {
            self.push_next(*n);
        }
    }
}
