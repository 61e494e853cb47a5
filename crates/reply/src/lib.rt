// What a call answers, as the checking programs pass it on: a reply with its shapes (`shape`), and its 88 bytes (`bytes`).
#![tactic(auto)]

mod bytes;
mod shape;

pub use bytes::put_reply;
pub use shape::{first, letter_reply, number_reply, record_reply, refused};

// The refusal's number or 0, the letter in ASCII or 0, a whole number beside these (of cp and w together: w's refusal; of a search: its trials), and up to ten numbers.
#[derive(Clone, Copy, Debug, PartialEq)]
pub struct Reply {
    pub refusal: u8,
    pub letter: u8,
    pub beside: u32,
    pub numbers: [f64; 10],
}
