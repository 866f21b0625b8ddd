// A number in decimal.
ghost use Rattle.std.specs.Prelude.{◌≡◌, ◌+◌, ◌^◌, ◌≤◌, ◌<◌, ◌++◌, length};
ghost use Rattle.io.specs.Digits.{last_digits, IsDigitCount};
ghost use Rattle.text.specs.Text.{decimal};

use crate::Text;

// How many digits n has, which says where the last of them stands. One is the commonest, and is asked first. `io::decimal` counts them by
// divisions, some 50 instructions more a number; `itoa::Buffer` writes them elsewhere, and they would be copied.
fn places(n: u64) -> usize
    ensures digit_count { IsDigitCount 10 1 n result }
    ensures upper_bound { result ≤ 20 }
{
    if n < 10 {
        return 1;
    }
    match n {
        ..=99 => 2,
        ..=999 => 3,
        ..=9_999 => 4,
        ..=99_999 => 5,
        ..=999_999 => 6,
        ..=9_999_999 => 7,
        ..=99_999_999 => 8,
        ..=999_999_999 => 9,
        ..=9_999_999_999 => 10,
        ..=99_999_999_999 => 11,
        ..=999_999_999_999 => 12,
        ..=9_999_999_999_999 => 13,
        ..=99_999_999_999_999 => 14,
        ..=999_999_999_999_999 => 15,
        ..=9_999_999_999_999_999 => 16,
        ..=99_999_999_999_999_999 => 17,
        ..=999_999_999_999_999_999 => 18,
        ..=9_999_999_999_999_999_999 => 19,
        _ => 20,
    }
}

impl<const N: usize> Text<N> {
    // Appends the number's digits, of which there are at most 20. They are written from the last on.
    pub fn push_decimal(&mut self, n: u64)
        requires { length self.old + 20 ≤ N }
        ensures text { self.new ≡ self.old ++ decimal n }
        ensures growth { length self.new ≤ length self.old + 20 }
    {
        let end = self.len + places(n);
        itoa::write_digits(n, &mut self.bytes, end);
        self.len = end;
    }
}
