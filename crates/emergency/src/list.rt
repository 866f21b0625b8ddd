// What is put into a list of tokens, kept of it and found in it.
ghost use Rattle.std.specs.Prelude.{◌≡◌, ◌&&◌, ◌<◌, nat_eq};
ghost use Rattle.sets.specs.Quantifiers.{some_in, keep};
ghost use Rattle.emergency.specs.Tokens.{token_places, tokens_of, Pushed, LiveOf, states_of};

use crate::{Token, TokenList};
use sets::compact;

impl TokenList {
    // Puts t last.
    pub fn push(&mut self, t: Token)
        requires { self.old.count < token_places }
        ensures { Pushed self.old t self.new }
    {
        self.tokens[self.count] = t;
        self.count += 1;
    }

    // Keeps the tokens that have not ended at the minute, in their order.
    pub fn retain_live(&mut self, minute: u32)
        ensures { LiveOf minute self.old self.new }
    {
        let n = self.len();
        self.count = compact::retain(&mut self.tokens[..n], |token: Token| minute < token.until);
    }

    // Whether a token has the number.
    pub fn has_number(&self, number: u16) -> bool
        ensures { result ≡ some_in (λ k. nat_eq k.number number) (tokens_of self.now) }
    {
        self.as_slice().iter().any(|token| token.number == number)
    }

    // The states of the first token of that number for that person.
    pub fn states_of(&self, number: u16, person: u16) -> Option<u8>
        ensures { result ≡ states_of (keep (λ k. nat_eq k.number number && nat_eq k.person person) (tokens_of self.now)) }
    {
        self.as_slice()
            .iter()
            .find(|token| token.number == number && token.person == person)
            .map(|token| token.states)
    }
}
