// A number, a record, and what a search found, as a refusal byte and what stands behind a pointer.
ghost use Rattle.common.specs.Answer.{paper};
ghost use Rattle.record.specs.Record.{paper_record};
ghost use Rattle.search.specs.Calls.{paper_searched};
ghost use Rattle.region3_c.specs.Exported.{Exported, ExportedRecord, ExportedFound, ExportedSearched};

use common::{Refusal, refusal_byte};
use record::RecordAnswer;
use search::SearchedRecord;
use secant::Proposal;

pub fn exported(a: Result<f64, Refusal>, out: &mut f64) -> u8
    ensures { Exported (paper a) result out.new }
{
    *out = a.unwrap_or(0.0);
    refusal_byte(a)
}

// A record and its ten numbers: an answer that is refused has a zeroed one.
pub fn exported_record(a: RecordAnswer, out: &mut [f64; 10]) -> u8
    ensures { ExportedRecord (paper_record a) result out.new }
{
    *out = a.record.into();
    refusal_byte(a.verdict)
}

// The trials stand behind a pointer of their own: none beside a refusal.
pub fn exported_found(a: Result<Proposal, Refusal>, place: &mut f64, trials: &mut u32) -> u8
    ensures { ExportedFound (paper a) result place.new trials.new }
{
    let at = a.unwrap_or(Proposal {
        place: 0.0,
        trials: 0,
    });
    *place = at.place;
    *trials = at.trials;
    refusal_byte(a)
}

pub fn exported_searched(found: SearchedRecord, out: &mut [f64; 10], trials: &mut u32) -> u8
    ensures { ExportedSearched (paper_searched found) result out.new trials.new }
{
    *out = found.record.into();
    *trials = found.trials;
    refusal_byte(found.verdict)
}
