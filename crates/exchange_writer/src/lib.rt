// A point of the exchange and its record: the two numbers of a pair under their units (`points`), and two fields in rising tags, 22 bytes, written where an
// entry's verdict and the lent room allow it. No entry is called here.
#![tactic(auto)]

ghost use Rattle.std.specs.Prelude.{◌≡◌, ◌≤◌, ◌++◌, length};
ghost use Rattle.std.proofs.lemmas.List.Edits.{sets};
ghost use Rattle.common.specs.Outcome.{number_in};
ghost use Rattle.common.specs.Answer.{paper};
ghost use Rattle.exchange_record.specs.Grammar.{spelt};
ghost use Rattle.exchange_writer.specs.declared.WriteRefusal.TheVariants.{Entry};
ghost use Rattle.exchange_writer.specs.Written.{number_field, record_of, after, paper_write, write_number};

use buffer::{put_bytes, put_float};
use common::{KJPerKg, KJPerKgK, Kelvin, KgPerM3, MPa, Refusal};

mod points;

pub use points::point_at;

// The two numbers of a pair, each under its unit.
#[derive(Clone, Copy)]
pub enum Point {
    PT(MPa, Kelvin),
    TD(Kelvin, KgPerM3),
    PH(MPa, KJPerKg),
    PS(MPa, KJPerKgK),
    HS(KJPerKg, KJPerKgK),
}

// Why a point is not written: its entry's own refusal, or fewer than 22 bytes lent.
#[derive(Clone, Copy, Debug, PartialEq, Eq)]
pub enum WriteRefusal {
    Entry(Refusal),
    Room,
}

impl From<Refusal> for WriteRefusal {
    ghost from_gives = { λ k r. r ≡ Entry k };

    fn from(k: Refusal) -> WriteRefusal {
        WriteRefusal::Entry(k)
    }
}

impl From<WriteRefusal> for u8 {
    ghost from_gives = { λ k r. r ≡ write_number k };

    fn from(k: WriteRefusal) -> u8 {
        match k {
            WriteRefusal::Entry(j) => j.into(),
            WriteRefusal::Room => 16,
        }
    }
}

// The field of a number.
// Kept: no `to_be_bytes` here, as `f64::to_bits` promises no bits of a NaN, and buffer's put_float does.
fn field(tag: u8, x: f64) -> [u8; 11]
    ensures { result ≡ spelt (number_field tag x) }
{
    let mut p = [0u8; 8];
    put_float(&mut p, 0, x);
    [tag, 0, 8, p[7], p[6], p[5], p[4], p[3], p[2], p[1], p[0]]
}

// The fields of a point's two numbers, with the tags of its pair.
// Kept: tags as numbers, 1 to 5, as in exchange_record's `Known`: docs/SCOPE and the grammar in specs have them so.
fn fields_of(point: Point) -> ([u8; 11], [u8; 11])
    ensures { result.0 ++ result.1 ≡ record_of point }
{
    match point {
        Point::PT(p, t) => (field(1, p.0), field(2, t.0)),
        Point::TD(t, d) => (field(2, t.0), field(3, d.0)),
        Point::PH(p, h) => (field(1, p.0), field(4, h.0)),
        Point::PS(p, s) => (field(1, p.0), field(5, s.0)),
        Point::HS(h, s) => (field(4, h.0), field(5, s.0)),
    }
}

// The record of a point, at the front of bytes that have room for it.
fn put(point: Point, out: &mut [u8])
    requires { 22 ≤ length out.old }
    ensures { out.new ≡ sets out.old 0 (record_of point) }
{
    let (first, second) = fields_of(point);
    put_bytes(out, 0, &first);
    put_bytes(out, 11, &second);
}

// By its entry's verdict and then by the room, a point's record at the front of the lent bytes. What it does not need is left as found, and on a refusal
// all of it.
pub fn write_if(
    verdict: Result<(), Refusal>,
    point: Point,
    out: &mut [u8],
) -> Result<(), WriteRefusal>
    ensures { (paper_write result, out.new) ≡ after (paper verdict) point out.old }
{
    verdict?;
    if out.len() < 22 {
        return Err(WriteRefusal::Room);
    }
    put(point, out);
    Ok(())
}

// The number of a verdict, 0 where it is accepted.
pub fn write_number(v: Result<(), WriteRefusal>) -> u8
    ensures { result ≡ number_in (paper_write v) }
{
    match v {
        Ok(()) => 0,
        Err(k) => k.into(),
    }
}
