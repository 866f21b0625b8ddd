// A line: numbers, then bytes where there are any, or the word `malformed`.
ghost use Rattle.std.specs.Prelude.{◌≡◌, ◌+◌, ◌*◌, ◌++◌, ◌≤◌, length};
ghost use Rattle.text.specs.Text.{bytes_text, line_body, line_text};

use crate::Text;

impl<const N: usize> Text<N> {
    // A blank and the bytes, where there are any.
    #[tactic(auto, unfolding(crate::specs::Text::bytes_text))]
    fn push_rest(&mut self, bytes: &[u8])
        requires { length self.old + 1 + 2 * length bytes.now ≤ N }
        ensures text { self.new ≡ self.old ++ bytes_text bytes.now }
        ensures growth { length self.new ≤ length self.old + 1 + 2 * length bytes.now }
    {
        if bytes.is_empty() {
            return;
        }
        self.push_bytes(b" ");
        self.push_hex(bytes);
    }

    // What stands in a line.
    fn push_body(&mut self, numbers: &[u64], bytes: &[u8])
        requires at_most_four { length numbers.now ≤ 4 }
        requires room { length self.old + 84 + 2 * length bytes.now ≤ N }
        ensures text { self.new ≡ self.old ++ line_body numbers.now bytes.now }
        ensures growth { length self.new ≤ length self.old + 84 + 2 * length bytes.now }
    {
        if numbers.is_empty() {
            self.push_bytes(b"malformed");
            return;
        }
        self.push_numbers(numbers);
        self.push_rest(bytes);
    }

    // Appends the line of at most four numbers and the bytes. Four numbers of 20 digits, three blanks between and one before the bytes,
    // two digits a byte and the line end have room.
    pub fn push_line(&mut self, numbers: &[u64], bytes: &[u8])
        requires at_most_four { length numbers.now ≤ 4 }
        requires room { length self.old + 85 + 2 * length bytes.now ≤ N }
        ensures { self.new ≡ self.old ++ line_text numbers.now bytes.now }
    {
        self.push_body(numbers, bytes);
        self.push_bytes(b"\n");
    }
}
