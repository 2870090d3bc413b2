// The unit of a sheet's figures, by the code of its XTRA.
ghost use Rattle.std.specs.Prelude.{◌≡◌, ltb};
ghost use Rattle.measure.specs.Sheets.{micrometres, scale_code};
ghost use Rattle.measure.specs.Units.{scale_of, UnitOf};

// Tenths of a centimetre, or eighths of an inch.
#[derive(Clone, Copy, Debug, PartialEq, Eq)]
pub enum Unit {
    Tenths = 0,
    Eighths = 1,
}

// The micrometres in a tenth of a centimetre, and in an eighth of an inch.
const TENTH: u64 = 1000;

const EIGHTH: u64 = 3175;

impl Unit {
    // Whether a unit has this code.
    #[tactic(auto, using(crate::proofs::UnitLaws::unit_tested))]
    pub fn is_known(code: u64) -> bool
        ensures { result ≡ ltb code 2 }
    {
        Unit::try_from(code).is_ok()
    }

    #[tactic(auto, unfolding(crate::specs::Sheets::scale_code))]
    pub fn code(self) -> u64
        ensures { result ≡ scale_code (scale_of self) }
    {
        self as u64
    }

    // The micrometres in one.
    #[tactic(auto, unfolding(crate::specs::Sheets::micrometres))]
    pub fn micrometres(self) -> u64
        ensures { result ≡ micrometres (scale_of self) }
    {
        match self {
            Unit::Tenths => TENTH,
            Unit::Eighths => EIGHTH,
        }
    }
}

// A code that no unit has.
#[derive(Clone, Copy, Debug, PartialEq, Eq)]
pub struct UnknownUnit(pub u64);

impl TryFrom<u64> for Unit {
    type Error = UnknownUnit;

    ghost try_from_gives = { UnitOf };

    #[tactic(auto, unfolding(crate::specs::Sheets::scale_code))]
    fn try_from(code: u64) -> Result<Self, UnknownUnit> {
        match code {
            0 => Ok(Unit::Tenths),
            1 => Ok(Unit::Eighths),
            _ => Err(UnknownUnit(code)),
        }
    }
}
