// The kinds of rows, and the words that a table has for them.
ghost use Rattle.std.specs.Prelude.{◌≡◌};
ghost use Rattle.format.specs.Kinds.{word_of, KindOf};

// What the item of a row is.
#[derive(Clone, Copy, Debug, PartialEq, Eq)]
pub enum Kind {
    Int = 1,
    Bits = 2,
    Char = 3,
    Bool = 4,
    Empty = 5,
    Xtra = 6,
    Struc = 7,
    Edt = 8,
    String = 9,
}

impl Kind {
    // The word that a table has for it.
    pub fn word(self) -> u64
        ensures { result ≡ word_of self }
    {
        self as u64
    }
}

// A word that no kind has.
#[derive(Clone, Copy, Debug, PartialEq, Eq)]
pub struct UnknownKind(pub u64);

impl TryFrom<u64> for Kind {
    type Error = UnknownKind;

    ghost try_from_gives = { KindOf };

    fn try_from(word: u64) -> Result<Self, UnknownKind> {
        match word {
            INT => Ok(Kind::Int),
            BITS => Ok(Kind::Bits),
            CHAR => Ok(Kind::Char),
            BOOL => Ok(Kind::Bool),
            EMPTY => Ok(Kind::Empty),
            XTRA => Ok(Kind::Xtra),
            STRUC => Ok(Kind::Struc),
            EDT => Ok(Kind::Edt),
            STRING => Ok(Kind::String),
            _ => Err(UnknownKind(word)),
        }
    }
}

// The same words, for what is compared with any words or stands among them: a lent table's word may be no kind's.
pub const INT: u64 = Kind::Int as u64;

pub const BITS: u64 = Kind::Bits as u64;

pub const CHAR: u64 = Kind::Char as u64;

pub const BOOL: u64 = Kind::Bool as u64;

pub const EMPTY: u64 = Kind::Empty as u64;

pub const XTRA: u64 = Kind::Xtra as u64;

pub const STRUC: u64 = Kind::Struc as u64;

pub const EDT: u64 = Kind::Edt as u64;

pub const STRING: u64 = Kind::String as u64;
