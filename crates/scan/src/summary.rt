// What a run of items comes to, counted and not laid out: a repeat's summary is a power of its pattern's.
ghost use Rattle.std.specs.Prelude.{◌≡◌, ◌≤◌, ◌+◌, ◌*◌, min, eqb};
ghost use Rattle.format.specs.Kinds.{word_of};
ghost use Rattle.format.specs.Bits.{words_for};
ghost use Rattle.scan.specs.Sums.{met_one, MetKind, mixed, or_else, second_sum, second_power, nothing_of, element_of, one_of, item_of, text_of, plus_of, power_of, struc_lead, container_of, struc_of, edt_of};

use format::kinds::Kind;
use std::ops::Add;

// Data words are counted so far and no further, and rows eight times as far: the characters of a string are a row each until it
// closes, and then eight of them are a word.
const WORDS_COUNTED: usize = 65536;

const ROWS_COUNTED: usize = 524288;

// A kind, none, or several of them: the word that a table has for the kind, 0, or 255.
// No enum: Option<Kind> and one of these three took 1.39 times the instructions for strings, a plain one 1.25, and this 1.00.
#[derive(Clone, Copy, Debug, Default, PartialEq, Eq)]
pub struct Met {
    word: u64,
}

impl Met {
    pub const NONE: Met = Met { word: 0 };

    pub const SEVERAL: Met = Met { word: 255 };

    // The kinds met of two runs together.
    fn with(self, other: Met) -> Met
        ensures { result ≡ mixed self other }
    {
        if self == Met::NONE {
            other
        } else if other == Met::NONE || self == other {
            self
        } else {
            Met::SEVERAL
        }
    }

    fn or(self, other: Met) -> Met
        ensures { result ≡ or_else self other }
    {
        if self == Met::NONE { other } else { self }
    }

    // Whether it is this kind.
    pub fn is(self, kind: Kind) -> bool
        ensures { result ≡ eqb self.word (word_of kind) }
    {
        self == Met::from(kind)
    }

    // The kind that it is, if it is one.
    pub fn kind(self) -> Option<Kind>
        ensures { MetKind self result }
    {
        Kind::try_from(self.word).ok()
    }
}

impl From<Kind> for Met {
    ghost from_gives = { λ k m. m ≡ met_one k };

    fn from(kind: Kind) -> Met {
        Met { word: kind.word() }
    }
}

// Any word in the place of a kind.
impl From<u64> for Met {
    ghost from_gives = { λ w m. m ≡ record { word = w } };

    fn from(word: u64) -> Met {
        Met { word }
    }
}

// What is told of a run of elements.
// For an EDT: its leads `first` and `second`, the first two elements that there are: Kind::String for a string, or else the kind.
// For the table: `rows` and `words`, the data words.
// For a USTRUC: `mix`, the kinds met. The class of an element is enough to know its kind. A STRUC is a string where they are none or
// CHAR.
// In an answer the byte of a refusal lies over the first field: a scan of nests took 1.12 times the instructions with `rows` there,
// and 1.07 with `second`.
#[derive(Clone, Copy, Debug, Default, PartialEq, Eq)]
pub struct Summary {
    pub second: Met,
    pub first: Met,
    pub rows: usize,
    pub words: usize,
    pub mix: Met,
}

// This and the next differ in the operator alone: a closure for it would be no shorter.
fn sum_capped(a: usize, b: usize, most: usize) -> usize
    requires { most ≤ 524288 }
    ensures { result ≡ min (min a most + min b most) most }
{
    (a.min(most) + b.min(most)).min(most)
}

fn product_capped(a: usize, b: usize, most: usize) -> usize
    requires { most ≤ 524288 }
    ensures { result ≡ min (min a most * min b most) most }
{
    (a.min(most) * b.min(most)).min(most)
}

impl Summary {
    // One element of a kind, which is such a lead, with the rows and the data words that it has.
    fn element(kind: Kind, lead: Kind, rows: usize, words: usize) -> Summary
        ensures { result ≡ element_of kind lead rows words }
    {
        Summary {
            rows,
            words,
            mix: Met::from(kind),
            first: Met::from(lead),
            second: Met::NONE,
        }
    }

    // One whose kind is all that an EDT asks, by its word, which may be any.
    pub fn of(met: Met, rows: usize, words: usize) -> Summary
        ensures { result ≡ item_of met rows words }
    {
        Summary {
            rows,
            words,
            mix: met,
            first: met,
            second: Met::NONE,
        }
    }

    // One that has no elements itself.
    pub fn one(kind: Kind, rows: usize, words: usize) -> Summary
        ensures { result ≡ one_of kind rows words }
    {
        Summary::of(Met::from(kind), rows, words)
    }

    // A string of n characters: one row, and a data word for each eight of them.
    #[tactic(auto, unfolding(format::specs::Bits::words_for))]
    pub fn text(n: usize) -> Summary
        requires { n ≤ 524288 }
        ensures { result ≡ text_of n }
    {
        Summary::element(Kind::Struc, Kind::String, 1, n.div_ceil(8))
    }

    // A BITS of n bits.
    #[tactic(auto, unfolding(format::specs::Bits::words_for))]
    pub fn bits(n: usize) -> Summary
        requires { n ≤ 524288 }
        ensures { result ≡ one_of Kind.Bits 1 (words_for n) }
    {
        Summary::one(Kind::Bits, 1, n.div_ceil(64))
    }

    // The second lead of one run after another.
    fn second_with(self, other: Summary) -> Met
        ensures { result ≡ second_sum self other }
    {
        if self.first == Met::NONE {
            other.second
        } else {
            self.second.or(other.first)
        }
    }

    // The second lead of a run that stands k times, k not 0: two of them settle it.
    fn second_times(self, k: usize) -> Met
        ensures { result ≡ second_power k self }
    {
        if k == 1 {
            return self.second;
        }
        self.second.or(self.first)
    }

    // A run that stands k times. However large k is, nothing is walked.
    #[tactic(auto, unfolding(crate::specs::Sums::power_of))]
    pub fn times(self, k: usize) -> Summary
        ensures { result ≡ power_of k self }
    {
        if k == 0 {
            return Summary::default();
        }
        Summary {
            rows: product_capped(k, self.rows, ROWS_COUNTED),
            words: product_capped(k, self.words, WORDS_COUNTED),
            mix: self.mix,
            first: self.first,
            second: self.second_times(k),
        }
    }

    // A container of a kind, which is such a lead, around these elements.
    fn container(self, kind: Kind, lead: Kind) -> Summary
        ensures { result ≡ container_of kind lead self }
    {
        Summary::element(
            kind,
            lead,
            sum_capped(self.rows, 1, ROWS_COUNTED),
            self.words.min(WORDS_COUNTED),
        )
    }

    // What a STRUC around these elements is to an EDT. One whose elements are all CHAR, the empty one included, is a string.
    fn struc_lead(self) -> Kind
        ensures { result ≡ struc_lead self.mix }
    {
        if self.mix == Met::NONE || self.mix.is(Kind::Char) {
            Kind::String
        } else {
            Kind::Struc
        }
    }

    // A STRUC around these elements. Of a string every element is a row until it closes: only then it is known for one.
    pub fn struc(self) -> Summary
        ensures { result ≡ struc_of self }
    {
        match self.struc_lead() {
            Kind::String => Summary::text(self.rows.min(ROWS_COUNTED)),
            lead => self.container(Kind::Struc, lead),
        }
    }

    pub fn edt(self) -> Summary
        ensures { result ≡ edt_of self }
    {
        self.container(Kind::Edt, Kind::Edt)
    }
}

// One run after another.
impl Add for Summary {
    type Output = Summary;

    ghost add_gives = { λ a b c. c ≡ plus_of a b };

    fn add(self, other: Summary) -> Summary {
        Summary {
            rows: sum_capped(self.rows, other.rows, ROWS_COUNTED),
            words: sum_capped(self.words, other.words, WORDS_COUNTED),
            mix: self.mix.with(other.mix),
            first: self.first.or(other.first),
            second: self.second_with(other),
        }
    }
}
