// The bytes of a directive, on a card and in a draft.
#![tactic(auto)]

pub mod form;

// How many bytes a directive has in edition 2 and in a draft.
pub const SIZE: usize = 25;

// How many bytes it has in edition 1.
pub const FIRST_EDITION_SIZE: usize = 23;

// The numbers that the 25 bytes of a directive write, whatever they are: effect, kind and reach are enums or flags only after question 7.
#[derive(Clone, Copy)]
pub struct Draft {
    pub number: u16,
    pub effect: u8,
    pub subject_kind: u8,
    pub subject: u16,
    pub subject_origins: u16,
    pub record: u8,
    pub reach: u8,
    pub origins: u16,
    pub sensitivities: u16,
    pub kinds: u8,
    pub purposes: u16,
    pub from: u32,
    pub until: u32,
}

// The error of a draft whose numbers do not keep the ranges of question 7.
#[derive(Clone, Copy, Debug, PartialEq, Eq)]
pub struct OutOfRange;
