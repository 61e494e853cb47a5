// The exchange record, read: fields of a one-byte tag, a two-byte length, the high byte first, and that many bytes. What is a record and what
// is refused stands in specs/Grammar.antt. One field and what becomes of it (`field`), the whole (`reader`).
#![tactic(auto)]

ghost use Rattle.std.specs.Prelude.{◌≡◌};
ghost use Rattle.exchange_record.specs.Reading.{read_number, pair_byte, pair_by, paper_named};
ghost use Rattle.exchange_record.specs.Walk.{last_of, added};

mod field;
mod reader;

pub use reader::read;

// The pairs that a record can hold, each with its byte: 0 stands for none.
#[derive(Clone, Copy, Debug, PartialEq, Eq)]
pub enum Pair {
    PT = 1,
    TD = 2,
    PH = 3,
    PS = 4,
    HS = 5,
}

impl From<Pair> for u8 {
    ghost from_gives = { λ pair r. r ≡ pair_byte pair };

    fn from(pair: Pair) -> u8 {
        pair as u8
    }
}

// A byte names no pair.
#[derive(Clone, Copy, Debug, PartialEq, Eq)]
pub struct NoPair;

impl TryFrom<u8> for Pair {
    type Error = NoPair;

    ghost try_from_gives = { λ byte r. paper_named r ≡ pair_by byte };

    fn try_from(byte: u8) -> Result<Pair, NoPair> {
        match byte {
            1 => Ok(Pair::PT),
            2 => Ok(Pair::TD),
            3 => Ok(Pair::PH),
            4 => Ok(Pair::PS),
            5 => Ok(Pair::HS),
            _ => Err(NoPair),
        }
    }
}

// What a record asks: a pair, and the bits of its two numbers, in the order of their tags.
#[derive(Clone, Copy, Debug, PartialEq, Eq)]
pub struct Asked {
    pub pair: Pair,
    pub a: u64,
    pub b: u64,
}

// Why a record is refused. Each case has the number that a caller is told; `read_number` has them for the proofs.
#[derive(Clone, Copy, Debug, PartialEq, Eq)]
pub enum ReadRefusal {
    PastEnd = 10,
    UnknownTag = 11,
    WrongLength = 12,
    OutOfOrder = 13,
    NotAPair = 14,
}

impl From<ReadRefusal> for u8 {
    ghost from_gives = { λ k r. r ≡ read_number k };

    fn from(k: ReadRefusal) -> u8 {
        k as u8
    }
}

// A known field: its tag, and the bits of its number.
// Kept: a tag is a number and no enum, as docs/SCOPE and the grammar in specs have it: any byte may stand there, and the order is that of numbers.
#[derive(Clone, Copy, Debug, PartialEq, Eq)]
pub struct Known {
    pub tag: u8,
    pub bits: u64,
}

// The known fields passed so far; of more than two, the last tag.
#[derive(Clone, Copy, Debug, PartialEq, Eq)]
pub enum Seen {
    Nothing,
    One(Known),
    Two(Known, Known),
    More(u8),
}

impl Seen {
    // The last known tag, 0 where there was none.
    fn last(self) -> u8
        ensures { result ≡ last_of self }
    {
        match self {
            Seen::Nothing => 0,
            Seen::One(x) => x.tag,
            Seen::Two(_, y) => y.tag,
            Seen::More(z) => z,
        }
    }

    fn with(self, f: Known) -> Seen
        ensures { result ≡ added self f }
    {
        match self {
            Seen::Nothing => Seen::One(f),
            Seen::One(x) => Seen::Two(x, f),
            Seen::Two(_, _) | Seen::More(_) => Seen::More(f.tag),
        }
    }
}

// What becomes of a field that does not stop the reader.
#[derive(Clone, Copy, Debug, PartialEq, Eq)]
pub enum Fate {
    Skipped,
    Taken,
}
