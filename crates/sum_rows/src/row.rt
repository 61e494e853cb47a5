// A row of 24 bytes: which table and which sum, then from byte 8 on vi and vj.
ghost use Rattle.std.specs.Prelude.{◌≡◌};
ghost use Rattle.sum_rows.specs.Row.{row_reply};

use crate::table::on_table;
use buffer::{byte_at, float_at};
use reply::{Reply, refused};
use sums_by_number::{UNKNOWN, sum_of};

// A table's bytes.
const TABLE: usize = 1040;

// What a row's sum comes to on its table, which is one of those that are lent.
pub fn reply_to(row: &[u8], tables: &[u8]) -> Reply
    ensures { result ≡ row_reply row.now tables.now }
{
    let at = TABLE * usize::from(byte_at(row, 0));
    let Some(table) = tables.get(at..at + TABLE) else {
        return refused(UNKNOWN);
    };
    // Kept: the length once more. A compiler loses it through `get`, and then tests bounds while it reads the table's numbers (docs/DESIGN-PASS.md).
    on_table(
        sum_of(byte_at(row, 1)),
        float_at(row, 8),
        float_at(row, 16),
        &table[..TABLE],
    )
}
