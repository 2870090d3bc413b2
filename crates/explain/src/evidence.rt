// The evidence of a refusal, one value from where it is found to the answer; and each case's numbers.
ghost use Rattle.std.specs.Prelude.{◌≡◌};
ghost use Rattle.explain.specs.Explanations.{coded};

use format::signed::word_of;

// Nothing: no more than number and containers. End: the offset of the first byte past the end that was passed. Byte: the byte at fault,
// and its place. Number: the length or count at fault. Absent: there is none. Kinds: the places of the first element and of the earliest
// of another kind. Element: 1 or 2, and its object's place. NoElement: 1 or 2, which is not there. Wanted: rows and data words.
// Which of two elements it is stays a number: the facts of the meaning (specs/Facts.antt) have it so.
#[derive(Clone, Copy)]
pub enum Evidence {
    Nothing,
    End(usize),
    Byte(u8, usize),
    Number(i64),
    Absent,
    Kinds(usize, usize),
    Element(usize, usize),
    NoElement(usize),
    Wanted(usize, usize),
}

// The evidence as it is answered: which case, and its two numbers, since the meaning has them so (coded, in specs/Explanations.antt).
#[derive(Clone, Copy)]
pub struct Code {
    pub evidence: usize,
    pub first: u64,
    pub second: u64,
}

impl Evidence {
    #[tactic(auto, unfolding(crate::specs::Explanations::coded))]
    pub fn code(self) -> Code
        ensures { result ≡ coded self }
    {
        let (evidence, first, second) = match self {
            Evidence::Nothing => (0, 0, 0),
            Evidence::End(end) => (1, end as u64, 0),
            Evidence::Byte(b, place) => (2, u64::from(b), place as u64),
            Evidence::Number(z) => (3, word_of(z), 0),
            Evidence::Absent => (4, 0, 0),
            Evidence::Kinds(p, q) => (5, p as u64, q as u64),
            Evidence::Element(which, place) => (6, which as u64, place as u64),
            Evidence::NoElement(which) => (7, which as u64, 0),
            Evidence::Wanted(rows, words) => (8, rows as u64, words as u64),
        };
        Code {
            evidence,
            first,
            second,
        }
    }
}
