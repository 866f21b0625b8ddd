// A program's arguments, as decimal numbers here and as bytes in `hexadecimal`.
#![tactic(auto)]

ghost use Rattle.std.specs.Prelude.{◌≡◌, ◌≤◌, length, take, true, None, MatchResult, IfOk};
ghost use Rattle.std.specs.Char.{is_ascii_digit};
ghost use Rattle.std.specs.List.{list_all};
ghost use Rattle.arguments.specs.Decimal.{value, is_decimal, most_digits, number_up_to, Bounded};

use std::env::{Env, FillError};

pub mod hexadecimal;

// The most digits that a number may have, zeros in front among them.
const MOST_DIGITS: usize = 5;

// The number that the digits write. By a loop: `str::parse` takes a `&str`, and would answer a `Result` that cannot fail for what is known to
// be digits.
fn value_of(digits: &[u8]) -> u64
    requires are_digits { list_all is_ascii_digit digits.now ≡ true }
    requires few { length digits.now ≤ most_digits }
    ensures { result ≡ value digits.now }
{
    let mut n = 0;
    for digit in digits {
        n = n * 10 + u64::from(*digit - b'0');
    }
    n
}

fn is_decimal(text: &[u8]) -> bool
    ensures { result ≡ is_decimal text.now }
{
    text.iter().all(u8::is_ascii_digit) && !text.is_empty()
}

// The number that the text writes in decimal, where it has at most five digits and is at most `most`.
pub fn number_up_to(text: &[u8], most: u64) -> Option<u64>
    ensures { result ≡ number_up_to most text.now }
{
    if !is_decimal(text) || text.len() > MOST_DIGITS {
        return None;
    }
    let n = value_of(text);
    (n <= most).then_some(n)
}

// What an argument is read as; none where it does not stand whole in the text.
fn read_as(got: Result<usize, FillError>, text: &[u8], most: u64) -> Option<u64>
    requires { IfOk got (λ n. n ≤ length text.now) }
    ensures value { MatchResult got (λ n. result ≡ number_up_to most (take n text.now)) (λ _. result ≡ None) }
    ensures bounded { Bounded most result }
{
    number_up_to(&text[..got.ok()?], most)
}

// Argument i of the program, of which 0 is its name, as a number that is at most `most`. One that is missing or has more bytes
// than a number has digits is refused. Which bytes an argument has, no contract can say: only the bound is promised.
pub fn argument<E: Env>(rt: &E, i: usize, most: u64) -> Option<u64>
    ensures { Bounded most result }
{
    // an argument is read into a buffer, and a number has no more digits
    let mut text = [0u8; MOST_DIGITS];
    read_as(rt.arg(i, &mut text), &text, most)
}

// Whether the program has an argument i, of any length.
fn is_there<E: Env>(rt: &E, i: usize) -> bool {
    !matches!(rt.arg(i, &mut []), Err(FillError::NotPresent))
}

// How many arguments the program has, its name among them; `most` where there are more.
pub fn count<E: Env>(rt: &E, most: usize) -> usize
    ensures { result ≤ most }
{
    (0..most).take_while(|i| is_there(rt, *i)).count()
}
