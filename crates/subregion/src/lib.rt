// The letters of region 3 as a closed kind, and the byte of each.
#![tactic(auto)]

ghost use Rattle.std.specs.Prelude.{◌≡◌};
ghost use Rattle.common.specs.Answer.{paper};
ghost use Rattle.subregion.specs.Letter.{ascii_of, of_byte, Decodes, byte_in};

use common::Refusal;

// A subregion of S05rev, with the byte of its letter: 97 is b'a', and the others count on from it.
#[derive(Clone, Copy, Debug, PartialEq, Eq)]
pub enum Letter {
    A = 97,
    B,
    C,
    D,
    E,
    F,
    G,
    H,
    I,
    J,
    K,
    L,
    M,
    N,
    O,
    P,
    Q,
    R,
    S,
    T,
    U,
    V,
    W,
    X,
    Y,
    Z,
}

impl From<Letter> for u8 {
    ghost from_gives = { λ l r. r ≡ ascii_of l };

    fn from(l: Letter) -> u8 {
        l as u8
    }
}

// A byte that is no letter's.
#[derive(Clone, Copy, Debug, PartialEq, Eq)]
pub struct NoLetter(pub u8);

impl TryFrom<u8> for Letter {
    type Error = NoLetter;

    ghost try_from_gives = { Decodes };

    fn try_from(b: u8) -> Result<Self, NoLetter> {
        match b {
            b'a' => Ok(Letter::A),
            b'b' => Ok(Letter::B),
            b'c' => Ok(Letter::C),
            b'd' => Ok(Letter::D),
            b'e' => Ok(Letter::E),
            b'f' => Ok(Letter::F),
            b'g' => Ok(Letter::G),
            b'h' => Ok(Letter::H),
            b'i' => Ok(Letter::I),
            b'j' => Ok(Letter::J),
            b'k' => Ok(Letter::K),
            b'l' => Ok(Letter::L),
            b'm' => Ok(Letter::M),
            b'n' => Ok(Letter::N),
            b'o' => Ok(Letter::O),
            b'p' => Ok(Letter::P),
            b'q' => Ok(Letter::Q),
            b'r' => Ok(Letter::R),
            b's' => Ok(Letter::S),
            b't' => Ok(Letter::T),
            b'u' => Ok(Letter::U),
            b'v' => Ok(Letter::V),
            b'w' => Ok(Letter::W),
            b'x' => Ok(Letter::X),
            b'y' => Ok(Letter::Y),
            b'z' => Ok(Letter::Z),
            _ => Err(NoLetter(b)),
        }
    }
}

// The letter of a byte, and a for a byte that is none's. Kept beside `try_from`: it cannot fail, and the column run asks it of bytes that it wrote itself.
#[tactic(auto, using(crate::proofs::Bytes::decoded))]
pub fn of_byte(b: u8) -> Letter
    ensures { result ≡ of_byte b }
{
    Letter::try_from(b).unwrap_or(Letter::A)
}

// The letter's byte, or 0 where there is none.
pub fn letter_byte(c: Result<Letter, Refusal>) -> u8
    ensures { result ≡ byte_in (paper c) }
{
    match c {
        Ok(l) => l.into(),
        Err(_) => 0,
    }
}
