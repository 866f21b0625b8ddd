// Bytes in lowercase hexadecimal.
ghost use Rattle.std.specs.Prelude.{◌≡◌, ◌+◌, ◌*◌, ◌<◌, ◌≤◌, ◌++◌, length};
ghost use Rattle.io.specs.Digits.{hex_digit_ascii};
ghost use Rattle.text.specs.Text.{hex_text};

use crate::Text;

// A digit in ASCII. `char::from_digit` answers an optional character, which is no plainer for a byte.
fn digit(d: u8) -> u8
    requires { d < 16 }
    ensures { result ≡ hex_digit_ascii d }
{
    if d < 10 { b'0' + d } else { b'a' + d - 10 }
}

// Puts the digits of the bytes, two digits a byte. By arithmetic, which is done for several bytes at once: the crate `hex` reads each digit
// from a table. By index, since nothing is known of what a loop over `chunks_exact_mut` writes.
fn put_digits(places: &mut [u8], bytes: &[u8])
    requires { length places.old ≡ 2 * length bytes.now }
    ensures { places.new ≡ hex_text bytes.now }
{
    for (k, b) in bytes.iter().enumerate() {
        places[2 * k] = digit(b / 16);
        places[2 * k + 1] = digit(b % 16);
    }
}

impl<const N: usize> Text<N> {
    // Appends the digits of the bytes.
    pub fn push_hex(&mut self, bytes: &[u8])
        requires { length self.old + 2 * length bytes.now ≤ N }
        ensures text { self.new ≡ self.old ++ hex_text bytes.now }
        ensures growth { length self.new ≡ length self.old + 2 * length bytes.now }
    {
        let end = self.len + 2 * bytes.len();
        put_digits(&mut self.bytes[..][self.len..end], bytes);
        self.len = end;
    }
}
