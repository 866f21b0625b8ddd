// A program's arguments as bytes in hexadecimal.
ghost use Rattle.std.specs.Prelude.{◌≡◌, ◌++◌, ◌+◌, ◌*◌, ◌/◌, ◌<◌, ◌≤◌, true, None, MatchResult, IfOk, length, slice_index, take, drop};
ghost use Rattle.std.specs.Char.{is_ascii_hexdigit, digit_value};
ghost use Rattle.std.specs.List.{list_all};
ghost use Rattle.arguments.specs.Hexadecimal.{bytes_of, is_hexadecimal, Decodes, AtMost};

use std::env::{Env, FillError};

// The most digits that an argument may have.
const MOST_HEX_DIGITS: usize = 1024;

fn is_hexadecimal(text: &[u8]) -> bool
    ensures { result ≡ is_hexadecimal text.now }
{
    text.iter().all(u8::is_ascii_hexdigit) && text.len() % 2 == 0
}

// What a digit counts.
fn hex_digit_of(b: u8) -> u8
    requires { is_ascii_hexdigit b ≡ true }
    ensures value { result ≡ digit_value b }
    ensures below { result < 16 }
{
    match b {
        b'0'..=b'9' => b - b'0',
        b'a'..=b'f' => b - b'a' + 10,
        _ => b - b'A' + 10,
    }
}

// Byte k of those that the digits write.
fn byte_at(digits: &[u8], k: usize) -> u8
    requires are_digits { list_all is_ascii_hexdigit digits.now ≡ true }
    requires within { 2 * k + 2 ≤ length digits.now }
    ensures { result ≡ slice_index (bytes_of digits.now) k }
{
    hex_digit_of(digits[2 * k]) * 16 + hex_digit_of(digits[2 * k + 1])
}

// The bytes that the digits write, at the start of the buffer. By a loop: the crate `hex` takes more than twice the time.
fn put_decoded(digits: &[u8], out: &mut [u8])
    requires are_digits { list_all is_ascii_hexdigit digits.now ≡ true }
    requires fits { length digits.now / 2 ≤ length out.old }
    ensures { out.new ≡ bytes_of digits.now ++ drop (length digits.now / 2) out.old }
{
    for k in 0..digits.len() / 2 {
        out[k] = byte_at(digits, k);
    }
}

// The bytes that the text writes in hexadecimal, two digits a byte in capitals or small letters, at the start of the buffer, and how many
// they are: a part of the caller's buffer, since nothing is allocated. Anything else is none, also more bytes than the buffer holds; it
// leaves the buffer as it was.
pub fn decode(text: &[u8], out: &mut [u8]) -> Option<usize>
    ensures { Decodes text.now out.old result out.new }
{
    let n = text.len() / 2;
    if !is_hexadecimal(text) || n > out.len() {
        return None;
    }
    put_decoded(text, out);
    Some(n)
}

// What an argument is decoded to; none where it does not stand whole in the text.
fn decode_as(got: Result<usize, FillError>, text: &[u8], out: &mut [u8]) -> Option<usize>
    requires { IfOk got (λ n. n ≤ length text.now) }
    ensures value { MatchResult got (λ n. Decodes (take n text.now) out.old result out.new) (λ _. (result ≡ None) × (out.new ≡ out.old)) }
    ensures at_most { AtMost (length out.old) result }
{
    decode(&text[..got.ok()?], out)
}

// Argument i of the program, of which 0 is its name, as bytes at the start of the buffer; how many they are. One that is missing or has
// more than 1,024 digits is refused. Which bytes an argument has, no contract can say: only how many they are at most is promised.
pub fn bytes_argument<E: Env>(rt: &E, i: usize, out: &mut [u8]) -> Option<usize>
    ensures { AtMost (length out.old) result }
{
    // an argument is read into a buffer
    let mut text = [0u8; MOST_HEX_DIGITS];
    decode_as(rt.arg(i, &mut text), &text, out)
}
