// The text that a program prints: its bytes, decimal numbers, bytes in hexadecimal, and the lines that they make. Nothing here is a
// `Display`: `write!` answers a `Result` and promises the text only where that is `Ok`, and no clause says that it is where there is room.
// An append here cannot fail. `growth` stands beside `text` in a contract since the proof search does not see how long a joined text is.
#![tactic(auto)]

ghost use Rattle.std.specs.Prelude.{◌≡◌, ◌+◌, ◌≤◌, ◌++◌, [], length, take};

use std::marker::Model;

pub mod decimal;
pub mod hex;
pub mod line;
pub mod numbers;

// A text of at most N bytes: an array and a count. It is no `arrayvec::ArrayVec<u8, N>`, which appends a slice by a `Result` that could not
// fail here, and lends no places past its end, into which the digits of a number are written from the last on.
#[derive(Drop)]
pub struct Text<const N: usize> {
    bytes: [u8; N],
    len: usize,
}

impl<const N: usize> Model for Text<N> {
    ghost use Rattle.std.specs.Prelude.{ℕ, List, ◌≡◌, ◌≤◌, length, take};

    ghost Value = { List ℕ };

    ghost view = { λ t. take t.len t.bytes };

    ghost invariant = { λ t. (t.len ≤ N) × (length t.bytes ≡ N) };
}

impl<const N: usize> Text<N> {
    // The empty text.
    pub fn new() -> Self
        ensures { result ≡ [] }
    {
        Text {
            bytes: [0; N],
            len: 0,
        }
    }

    // The bytes of the text.
    pub fn as_slice(&self) -> &[u8]
        ensures value { result.now ≡ self.now }
        ensures fits { length result.now ≤ N }
    {
        &self.bytes[..self.len]
    }

    // Makes the text empty.
    pub fn clear(&mut self)
        ensures { self.new ≡ [] }
    {
        self.len = 0;
    }

    // Appends the bytes. `[..]`, since the part is taken of a slice: a part of an array whose length is a parameter has no proof.
    #[inline]
    pub fn push_bytes(&mut self, bytes: &[u8])
        requires { length self.old + length bytes.now ≤ N }
        ensures { self.new ≡ self.old ++ bytes.now }
    {
        let end = self.len + bytes.len();
        self.bytes[..][self.len..end].copy_from_slice(bytes);
        self.len = end;
    }
}
