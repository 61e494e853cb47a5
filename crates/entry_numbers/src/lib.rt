// Which number names which entry point.
#![tactic(auto)]

ghost use Rattle.std.specs.Prelude.{◌≡◌};
ghost use Rattle.entry_numbers.specs.Numbers.{entry_of};

// The entry points: the written rules, the saturation line, a boundary, the letter and a letter's volume; volumes, the
// backward equations, the border with region 2; records and a property; a row of the column run, cp and w together, what a search finds.
#[derive(Clone, Copy, Debug, PartialEq, Eq)]
pub enum Entry {
    Power,
    Root,
    Logarithm,
    Exponential,
    PSaturation,
    TSaturation,
    Boundary,
    Letter,
    LetterVolume,
    Volume,
    PhaseVolume,
    PhT,
    PhV,
    PsT,
    PsV,
    HsP,
    BorderT,
    BorderP,
    TdRecord,
    PtRecord,
    PhRecord,
    PsRecord,
    HsRecord,
    Property,
    PvRecord,
    ThRecord,
    TsRecord,
    ColumnRow,
    CpW,
    PvT,
    ThD,
    TsD,
}

// Each entry stands at its number, and None at a number that names none.
const ENTRIES: [Option<Entry>; 38] = [
    // 0 to 9
    None,
    Some(Entry::Power),
    Some(Entry::Root),
    Some(Entry::Logarithm),
    Some(Entry::Exponential),
    Some(Entry::PSaturation),
    Some(Entry::TSaturation),
    Some(Entry::Boundary),
    Some(Entry::Letter),
    Some(Entry::LetterVolume),
    // 10 to 19
    Some(Entry::Volume),
    Some(Entry::PhaseVolume),
    Some(Entry::PhT),
    Some(Entry::PhV),
    Some(Entry::PsT),
    Some(Entry::PsV),
    Some(Entry::HsP),
    None,
    Some(Entry::BorderT),
    Some(Entry::BorderP),
    // 20 to 29
    Some(Entry::TdRecord),
    Some(Entry::PtRecord),
    Some(Entry::PhRecord),
    Some(Entry::PsRecord),
    Some(Entry::HsRecord),
    Some(Entry::Property),
    Some(Entry::PvRecord),
    Some(Entry::ThRecord),
    Some(Entry::TsRecord),
    None,
    // 30 to 37
    Some(Entry::ColumnRow),
    None,
    None,
    None,
    Some(Entry::CpW),
    Some(Entry::PvT),
    Some(Entry::ThD),
    Some(Entry::TsD),
];

// The entry that a number names, if any.
// Kept: an Option and no TryFrom, since None says all there is to say of a number that names none: an error type would say no more.
#[tactic(auto, unfolding(crate::specs::Numbers::entry_of))]
pub fn entry_of(number: u8) -> Option<Entry>
    ensures { result ≡ entry_of number }
{
    ENTRIES.get(usize::from(number)).copied().flatten()
}
