// A point written where its own entry accepts it, under its units or by the byte of its pair.
ghost use Rattle.std.specs.Prelude.{◌≡◌};
ghost use Rattle.exchange_writer.specs.Written.{paper_write};
ghost use Rattle.exchange_entry.specs.Write.{write_rule, written_by};

use crate::ask;
use exchange_record::Pair;
use exchange_writer::{Point, WriteRefusal, point_at, write_if, write_number};
use record::Record;

// The refusal of a pair byte that names none.
const NO_PAIR: u8 = 255;

// A point's record at the front of the lent bytes, of a point that its own entry accepts.
pub fn write(point: Point, out: &mut [u8]) -> Result<(), WriteRefusal>
    ensures { (paper_write result, out.new) ≡ write_rule point out.old }
{
    write_if(ask(Record::default(), point).verdict, point, out)
}

// A point by the byte of its pair, for callers that have no units: its number, 255 where the byte names no pair.
pub fn write_by(pair: u8, a: f64, b: f64, out: &mut [u8]) -> u8
    ensures { (result, out.new) ≡ written_by pair a b out.old }
{
    match Pair::try_from(pair) {
        Ok(p) => write_number(write(point_at(p, a, b), out)),
        Err(_) => NO_PAIR,
    }
}
