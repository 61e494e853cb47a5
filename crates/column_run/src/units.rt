// The column run under its units: a column of pressures and one of temperatures cannot change places.
ghost use Rattle.std.specs.Prelude.{◌≡◌};
ghost use Rattle.common.specs.Answer.{paper};
ghost use Rattle.column_run.specs.Columns.{lent, columns_rule};

use crate::run::columns;
use crate::{Pressures, Temperatures};
use common::Refusal;

pub fn columns_of<'a, 'b, 'c, 'd, 'e>(
    p: Pressures<'a>,
    t: Temperatures<'b>,
    letters: &'c mut [u8],
    densities: &'d mut [f64],
    refusals: &'e mut [u8],
) -> Result<(), Refusal>
    ensures { (paper result, lent letters.new densities.new refusals.new) ≡ columns_rule p.entry.0.now t.entry.0.now (lent letters.old densities.old refusals.old) }
{
    columns(p.0, t.0, letters, densities, refusals)
}
