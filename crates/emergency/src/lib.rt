// Emergency tokens: the list of them, scope and brief.
#![tactic(auto)]

ghost use Rattle.std.specs.Prelude.{◌≡◌, ◌≤◌, length, min};
ghost use Rattle.emergency.specs.Tokens.{token_places, empty_tokens, tokens_of};

use sets::record_set::RecordSet;

pub mod disclosure;
pub mod list;
pub mod scope;

// How many tokens can be live.
pub const PLACES: usize = 4;

#[derive(Clone, Copy, Default)]
pub struct Token {
    pub number: u16,
    pub person: u16,
    pub states: u8,
    pub until: u32,
}

// The tokens in order of issue; what stands past the count has no meaning. An array and a count, as the active list is.
#[derive(Clone, Copy)]
pub struct TokenList {
    pub tokens: [Token; PLACES],
    pub count: usize,
}

impl TokenList {
    #[tactic(auto, unfolding(crate::specs::Tokens::empty_tokens))]
    pub fn empty() -> TokenList
        ensures { result ≡ empty_tokens }
    {
        let none = Token::default();
        let tokens = [none; PLACES];
        TokenList {
            tokens: tokens,
            count: 0,
        }
    }

    // The tokens that count, in order of issue.
    pub fn as_slice(&self) -> &[Token]
        ensures value { result.now ≡ tokens_of self.now }
        ensures few { length result.now ≤ token_places }
    {
        &self.tokens[..self.len()]
    }

    // How many tokens there are.
    pub fn len(&self) -> usize
        ensures value { result ≡ length (tokens_of self.now) }
        ensures counted { result ≡ min self.now.count token_places }
    {
        self.count.min(PLACES)
    }
}

// Records, and how many they are: those that a scope discloses, or those that a draft would change.
#[derive(Clone, Copy)]
pub struct Brief {
    pub records: RecordSet,
    pub count: u32,
}

impl From<RecordSet> for Brief {
    ghost use Rattle.sets.specs.RecordSets.{set_bits};

    ghost from_gives = { λ records brief. brief ≡ record { records = records; count = set_bits records } };

    fn from(records: RecordSet) -> Brief {
        Brief {
            records,
            count: records.len(),
        }
    }
}
