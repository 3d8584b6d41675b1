// Why an import is refused, with the number that each reason has and the places that it names. The definitions stand in specs/Refusals.antt.
#![tactic(auto)]

ghost use Rattle.std.specs.Prelude.{◌≡◌};
ghost use Rattle.sheet_line.specs.Refusals.{line_number};
ghost use Rattle.records.specs.Refusals.{places_given};
ghost use Rattle.sheet_refusals.specs.declared.Refusal.TheVariants.{Catalogue};
ghost use Rattle.sheet_refusals.specs.Refusals.{import_number, import_places};

use records::Places;
use sheet_line::LineFault;

// Too many lines, a line with its place from 1, or the catalogue that the lines say.
#[derive(Clone, Copy, PartialEq, Eq)]
pub enum Refusal {
    TooMany,
    Line(LineFault, usize),
    Catalogue(records::Refusal),
}

// The number of what is wrong with a line.
fn line_number(x: LineFault) -> u8
    ensures { result ≡ line_number x }
{
    match x {
        LineFault::Malformed => 15,
        LineFault::Unquoted => 16,
        LineFault::Long => 17,
    }
}

impl Refusal {
    // The number of a refusal.
    pub fn number(self) -> u8
        ensures { result ≡ import_number self }
    {
        match self {
            Refusal::TooMany => 18,
            Refusal::Line(f, _) => line_number(f),
            Refusal::Catalogue(x) => x.number(),
        }
    }

    // The places that it names: its line, or what the catalogue's names, where a record is its line.
    pub fn places(self) -> Places
        ensures { result ≡ places_given (import_places self) }
    {
        match self {
            Refusal::TooMany => Places::One(513),
            Refusal::Line(_, line) => Places::One(line),
            Refusal::Catalogue(x) => x.places(),
        }
    }
}

// What the catalogue is refused for refuses the import.
impl From<records::Refusal> for Refusal {
    ghost from_gives = { λ x y. y ≡ Catalogue x };

    fn from(x: records::Refusal) -> Refusal {
        Refusal::Catalogue(x)
    }
}
