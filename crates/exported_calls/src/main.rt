// Calls what the exported functions call, region3_c's of the same names: rows of 24 bytes from standard input as `answers` has them, and for each on
// standard output the 88 bytes of what the call wrote. The entry's number says which function is meant; 31 stands for the column run on columns of given
// lengths. What a call is to write is found full of a number that no call answers.
#![tactic(auto)]

ghost use Rattle.std.specs.Prelude.{◌≤◌};

use buffer::{byte_at, float_at, int_at, put_bytes, put_float};
use entry_numbers::{Entry, entry_of};
use reply::{Reply, first, refused};
use stdio::Reading;

const FOUND: f64 = -90.5;

const FOUND_BYTE: u8 = 90;

const FOUND_TRIALS: u32 = 90000;

// The number of the column run on columns of given lengths, which is no entry's.
const COLUMNS: u8 = 31;

// A call that writes one number.
fn number<F: FnOnce(&mut f64) -> u8>(call: F) -> Reply
    requires { F.IsAlwaysCallable call }
{
    let mut x = FOUND;
    let refusal = call(&mut x);
    Reply {
        refusal,
        ..first(x)
    }
}

// A call that writes a record.
fn record<F: FnOnce(&mut [f64; 10]) -> u8>(call: F) -> Reply
    requires { F.IsAlwaysCallable call }
{
    let mut numbers = [FOUND; 10];
    let refusal = call(&mut numbers);
    Reply {
        numbers,
        ..refused(refusal)
    }
}

// A call for what a search finds: the trials stand beside the refusal.
fn found<F: FnOnce(&mut f64, &mut u32) -> u8>(call: F) -> Reply
    requires { F.IsAlwaysCallable call }
{
    let mut beside = FOUND_TRIALS;
    let reply = number(|x| call(x, &mut beside));
    Reply { beside, ..reply }
}

fn searched<F: FnOnce(&mut [f64; 10], &mut u32) -> u8>(call: F) -> Reply
    requires { F.IsAlwaysCallable call }
{
    let mut beside = FOUND_TRIALS;
    let reply = record(|numbers| call(numbers, &mut beside));
    Reply { beside, ..reply }
}

fn letter(a: f64, b: f64) -> Reply {
    let mut letter = FOUND_BYTE;
    let refusal = region3_c::r3_letter(a, b, &mut letter);
    Reply {
        letter,
        ..refused(refusal)
    }
}

// cp and w: w's refusal stands beside cp's.
fn cp_w(a: f64, b: f64) -> Reply {
    let mut cp = FOUND;
    let mut w = FOUND;
    let mut beside = FOUND_BYTE;
    let refusal = region3_c::r3_cp_w(a, b, &mut cp, &mut w, &mut beside);
    Reply {
        beside: beside.into(),
        numbers: [cp, w, 0.0, 0.0, 0.0, 0.0, 0.0, 0.0, 0.0, 0.0],
        ..refused(refusal)
    }
}

fn length_at(row: &[u8], at: usize) -> usize
    ensures { result ≤ 5 }
{
    usize::from(byte_at(row, at)).min(5)
}

// What a column run wrote: its refusal, and the five cells of each lent column as they are afterwards.
// Kept: three arrays side by side, as the C interface lends three columns.
#[derive(Clone, Copy, Debug)]
struct Columns {
    refusal: u8,
    letters: [u8; 5],
    densities: [f64; 5],
    refusals: [u8; 5],
}

// The column run on given p and T, with columns of the lengths that bytes 3 to 5 of a row say, of letters, densities and refusals.
fn run_columns(ps: &[f64], ts: &[f64], row: &[u8]) -> Columns {
    let mut letters = [FOUND_BYTE; 5];
    let mut densities = [FOUND; 5];
    let mut refusals = [FOUND_BYTE; 5];
    let refusal = region3_c::r3_columns(
        ps,
        ts,
        &mut letters[..length_at(row, 3)],
        &mut densities[..length_at(row, 4)],
        &mut refusals[..length_at(row, 5)],
    );
    Columns {
        refusal,
        letters,
        densities,
        refusals,
    }
}

// One row of the column run. A call that is refused as a whole has its own number, which no row has.
fn column_row(a: f64, b: f64) -> Reply {
    let c = run_columns(&[a], &[b], &[1; 6]);
    Reply {
        refusal: if c.refusal == 0 {
            c.refusals[0]
        } else {
            c.refusal
        },
        letter: c.letters[0],
        ..first(c.densities[0])
    }
}

// A number that names no entry, or one that no exported function has, stands for a property as well.
fn call(entry: Option<Entry>, n: i32, a: f64, b: f64) -> Reply {
    match entry {
        Some(Entry::Power) => number(|x| region3_c::r3_power(a, n, x)),
        Some(Entry::Root) => number(|x| region3_c::r3_root(a, x)),
        Some(Entry::Logarithm) => number(|x| region3_c::r3_logarithm(a, x)),
        Some(Entry::Exponential) => number(|x| region3_c::r3_exponential(a, x)),
        Some(Entry::PSaturation) => number(|x| region3_c::r3_p_saturation(a, x)),
        Some(Entry::TSaturation) => number(|x| region3_c::r3_t_saturation(a, x)),
        Some(Entry::Letter) => letter(a, b),
        Some(Entry::BorderT) => number(|x| region3_c::r3_t_border(a, x)),
        Some(Entry::BorderP) => number(|x| region3_c::r3_p_border(a, x)),
        Some(Entry::TdRecord) => record(|xs| region3_c::r3_td(a, b, xs)),
        Some(Entry::PtRecord) => record(|xs| region3_c::r3_pt(a, b, xs)),
        Some(Entry::PhRecord) => record(|xs| region3_c::r3_ph(a, b, xs)),
        Some(Entry::PsRecord) => record(|xs| region3_c::r3_ps(a, b, xs)),
        Some(Entry::HsRecord) => record(|xs| region3_c::r3_hs(a, b, xs)),
        Some(Entry::PvRecord) => searched(|xs, trials| region3_c::r3_pv(a, b, xs, trials)),
        Some(Entry::ThRecord) => searched(|xs, trials| region3_c::r3_th(a, b, xs, trials)),
        Some(Entry::TsRecord) => searched(|xs, trials| region3_c::r3_ts(a, b, xs, trials)),
        Some(Entry::ColumnRow) => column_row(a, b),
        Some(Entry::CpW) => cp_w(a, b),
        Some(Entry::PvT) => found(|x, trials| region3_c::r3_pv2t(a, b, x, trials)),
        Some(Entry::ThD) => found(|x, trials| region3_c::r3_th2d(a, b, x, trials)),
        Some(Entry::TsD) => found(|x, trials| region3_c::r3_ts2d(a, b, x, trials)),
        _ => number(|x| region3_c::r3_property(n, a, b, x)),
    }
}

// The column run on columns of the lengths that bytes 1 to 5 of a row say, the first two of its p and its T.
fn columns_of(row: &[u8]) -> Columns {
    let ps = [float_at(row, 8); 5];
    let ts = [float_at(row, 16); 5];
    run_columns(&ps[..length_at(row, 1)], &ts[..length_at(row, 2)], row)
}

fn columns_bytes(c: Columns) -> [u8; 88] {
    let mut out = [0; 88];
    out[0] = c.refusal;
    put_bytes(&mut out, 8, &c.letters);
    put_bytes(&mut out, 16, &c.refusals);
    for (k, d) in c.densities.iter().enumerate() {
        put_float(&mut out, 24 + 8 * k, *d);
    }
    out
}

fn reply_to(row: &[u8]) -> [u8; 88] {
    let number = byte_at(row, 0);
    if number == COLUMNS {
        return columns_bytes(columns_of(row));
    }
    call(
        entry_of(number),
        int_at(row, 4),
        float_at(row, 8),
        float_at(row, 16),
    )
    .into()
}

// One turn: a row and its reply. Answers whether to go on.
// Kept: a turn of its own in each program: the words that it says and what it does with a row are its own, and the loop is three lines.
fn turn(rt: HostRuntime, done: u64) -> bool {
    let mut row = [0; 24];
    let Reading { have, stop } = stdio::read_until_full(
        rt,
        b"exported_calls: standard input",
        &mut rt.stdin(),
        &mut row,
    );
    pages::go_on(rt, b"exported_calls: rows ", stop, done, have as u64)
        && stdio::send(
            rt,
            b"exported_calls: writing",
            &mut rt.stdout(),
            &reply_to(&row),
        )
}

fn main(rt: HostRuntime) {
    if stdio::from_terminal(
        rt,
        b"exported_calls: what each exported call writes: reads rows of 24 bytes (entry, number, two f64) from a file or a pipe, not from a terminal\n",
    ) {
        return;
    }
    // (the end of the range is a number of rows that no run reaches)
    for done in 0..u64::MAX {
        if !turn(rt, done) {
            return;
        }
    }
}
