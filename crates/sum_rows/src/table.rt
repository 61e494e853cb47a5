// A sum on a stored table of 1040 bytes.
ghost use Rattle.std.specs.Prelude.{◌≡◌, ◌≤◌};
ghost use Rattle.sum_rows.specs.Table.{rows_in, wholes, floats, table_reply};

use buffer::{byte_at, float_at, int_at};
use reply::Reply;
use std::array;
use sums_by_number::{Sum, work};

// How many rows a column has: a table has room for 64.
fn rows_in(table: &[u8], which: usize) -> usize
    ensures { (result ≡ rows_in table.now which) × (result ≤ 64) }
{
    usize::from(byte_at(table, which)).min(64)
}

// The 64 whole numbers from a byte on.
fn wholes_from(table: &[u8], at: usize) -> [i32; 64]
    requires { at ≤ 1024 }
    ensures { result ≡ wholes table.now at }
{
    array::from_fn(|k| int_at(table, at + 4 * k))
}

// The 64 numbers from a byte on. Kept: one function for both would take a number's reader and its size, and say no more.
fn floats_from(table: &[u8], at: usize) -> [f64; 64]
    requires { at ≤ 1024 }
    ensures { result ≡ floats table.now at }
{
    array::from_fn(|k| float_at(table, at + 8 * k))
}

// Kept: arrays with counts beside them, since a table's bytes are fixed so: three counts, and room for 64 rows in each column.
pub fn on_table(sum: Option<Sum>, vi: f64, vj: f64, table: &[u8]) -> Reply
    ensures { result ≡ table_reply sum vi vj table.now }
{
    let is = wholes_from(table, 16);
    let js = wholes_from(table, 272);
    let ns = floats_from(table, 528);
    let i = rows_in(table, 0);
    let j = rows_in(table, 1);
    let n = rows_in(table, 2);
    work(sum, vi, vj, &is[..i], &js[..j], &ns[..n])
}
