// Why something is refused, and the fault of a message: one value from where it is met to the answer, made here and moved outward here.
ghost use Rattle.std.specs.Prelude.{◌≡◌, ◌+◌, ◌^◌, ◌<◌};
ghost use Rattle.format.specs.Refusals as R;
ghost use Rattle.format.specs.Refused.{number_of, meant, numbered};

use super::limits::MOST_BYTES;

// Why something is refused, each with its number, written here alone. 2 to 9 are faults of a message; the others are met before one is
// read, where it is laid out, where a table is written, where tables are compared, and where a measure sheet is read or written.
#[derive(Clone, Copy, Debug, PartialEq, Eq)]
pub enum Refusal {
    TooLong = 1,
    PastInput = 2,
    PastEnclosing = 3,
    Unassigned = 4,
    TooDeep = 5,
    BadBits = 6,
    BadRepeat = 7,
    SeveralKinds = 8,
    BadEdt = 9,
    TooMany = 10,
    TableShort = 11,
    NotATable = 12,
    TooNested = 13,
    NormalLong = 14,
    OutputShort = 15,
    ListShort = 16,
    NotASheet = 20,
    FigureEmpty = 21,
    FigureRange = 22,
}

impl Refusal {
    // The number by the shears.
    pub fn number(self) -> usize
        ensures { result ≡ number_of self }
    {
        self as usize
    }
}

// A fault of a message: why it is refused; the offset of the faulty object's type-byte, from the start of what is being read; and the
// bytes that are missing where it ends too early, otherwise 0.
#[derive(Clone, Copy, Debug, PartialEq, Eq)]
pub struct Fault {
    pub refusal: Refusal,
    pub place: usize,
    pub missing: usize,
}

impl Fault {
    // A fault of what is being read, for which no bytes are missing.
    pub fn here(refusal: Refusal) -> Fault
        ensures { meant result ≡ R.here (number_of refusal) }
    {
        Fault {
            refusal,
            place: 0,
            missing: 0,
        }
    }

    // One for which k bytes are missing. They are told up to 65,536.
    pub fn wants(refusal: Refusal, k: usize) -> Fault
        ensures { meant result ≡ R.wants (number_of refusal) k }
    {
        Fault {
            refusal,
            place: 0,
            missing: k.min(MOST_BYTES),
        }
    }

    // The fault where what was read stands n bytes further on.
    pub fn further(self, n: usize) -> Fault
        requires { n + self.place < 2 ^ 64 }
        ensures { meant result ≡ R.further n (meant self) }
    {
        Fault {
            place: n + self.place,
            ..self
        }
    }
}

// A fault by its number, which may be any, and not only that of a `Refusal`.
#[derive(Clone, Copy, Debug, PartialEq, Eq)]
pub struct Numbered {
    pub number: usize,
    pub place: usize,
    pub missing: usize,
}

impl From<Fault> for Numbered {
    ghost from_gives = { λ f n. numbered n ≡ meant f };

    fn from(f: Fault) -> Numbered {
        Numbered {
            number: f.refusal.number(),
            place: f.place,
            missing: f.missing,
        }
    }
}

// A fault of this number of what is being read, for which no bytes are missing.
pub fn here(number: usize) -> Numbered
    ensures { numbered result ≡ R.here number }
{
    Numbered {
        number,
        place: 0,
        missing: 0,
    }
}

// One for which k bytes are missing, told as above.
pub fn wants(number: usize, k: usize) -> Numbered
    ensures { numbered result ≡ R.wants number k }
{
    Numbered {
        missing: MOST_BYTES.min(k),
        ..here(number)
    }
}

// The fault where what was read stands n bytes further on.
#[tactic(auto, unfolding(crate::specs::Refusals::further))]
pub fn further(n: usize, f: Numbered) -> Numbered
    requires { n + f.place < 2 ^ 64 }
    ensures { numbered result ≡ R.further n (numbered f) }
{
    Numbered {
        place: n + f.place,
        ..f
    }
}
