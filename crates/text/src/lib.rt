// Text: the card's decimals, key words and lines, read from bytes.
#![tactic(auto)]

mod decimal;
mod keys;
pub mod line;

// The card's own limits: the bytes of a card, and the largest number of a variable, an environment or a thunk.
#[derive(Drop)]
pub struct Card {}

impl Card {
    pub const BYTES: usize = 16_384;

    pub const NUMBER: u32 = 65_535;
}
