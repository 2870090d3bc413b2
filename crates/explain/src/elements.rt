// Places among the elements of a run, repeats laid out. A repeat's pattern is walked once, whatever its count.
ghost use Rattle.std.specs.Prelude.{◌≡◌, ◌+◌, ◌≤◌, ◌&&◌, length};
ghost use Rattle.std.specs.Option.{is_some};
ghost use Rattle.format.specs.Refusals.{byte_limit};
ghost use Rattle.format.specs.Kinds.{word_of};
ghost use Rattle.explain.specs.Told.{word_asked, elements_of, one_of, plus_of, copies_of, places_of, wrap_piece, PieceIs};

use crate::one_byte::quiet_end;
use crate::stretch::Stretch;
use format::fault::Fault;
use format::kinds::Kind;
use wire::head::{Head, Wrap, head_of};
use wire::size::Extent;

// Where the first element stands, where the second, and where the earliest that is not of the kind asked for.
#[derive(Clone, Copy, Debug, Default, PartialEq, Eq)]
pub struct Places {
    pub first: Option<usize>,
    pub second: Option<usize>,
    pub other: Option<usize>,
}

impl Places {
    // One element of this kind at a place.
    #[tactic(auto, unfolding(crate::specs::Told::one_of, format::specs::Choice::if_eq))]
    fn one(asked: Option<Kind>, kind: Kind, place: usize) -> Places
        ensures { result ≡ one_of (word_asked asked) (word_of kind) place }
    {
        Places {
            first: Some(place),
            second: None,
            other: (asked != Some(kind)).then_some(place),
        }
    }

    // The elements of one run, and those of another behind them.
    fn then(self, later: Places) -> Places
        ensures { result ≡ plus_of self later }
    {
        Places {
            first: self.first.or(later.first),
            second: match self.first {
                Some(_) => self.second.or(later.first),
                None => later.second,
            },
            other: self.other.or(later.other),
        }
    }

    // So many copies of a run: two settle it.
    #[tactic(auto, unfolding(crate::specs::Told::copies_of, format::specs::Choice::if_eq))]
    fn times(self, count: usize) -> Places
        ensures { result ≡ copies_of count self }
    {
        match count {
            0 => Places::default(),
            1 => self,
            _ => self.then(self),
        }
    }

    // Whether nothing that follows makes a difference.
    fn settled(self) -> bool
        ensures { result ≡ (is_some self.second && is_some self.other) }
    {
        self.second.is_some() && self.other.is_some()
    }
}

// An object in a run: padding; one element, its kind and its bytes past the type-byte; or a repeat, its count and its pattern.
#[derive(Clone, Copy)]
pub enum Piece {
    Skip,
    Item(Kind, usize),
    Copies(usize, Extent),
}

fn wrapped(w: Wrap, e: Extent) -> Piece
    requires { e.start + e.size ≤ byte_limit }
    ensures { result ≡ wrap_piece w e }
{
    match w {
        Wrap::Struc | Wrap::Ustruc => Piece::Item(Kind::Struc, e.end()),
        Wrap::Edt => Piece::Item(Kind::Edt, e.end()),
        Wrap::Repeat(count) => Piece::Copies(count, e),
    }
}

fn piece_of(depth: usize, b: u8, s: &[u8]) -> Result<Piece, Fault>
    requires { length s.now ≤ byte_limit }
    ensures { PieceIs depth b s.now result }
{
    let head = head_of(depth, b, s)?;
    match head {
        Head::Gap => Ok(Piece::Skip),
        Head::Row(kind, _, past) => Ok(Piece::Item(kind, past)),
        Head::Sbits(_, _, past) | Head::Lbits(_, _, past) => Ok(Piece::Item(Kind::Bits, past)),
        Head::Text(e) => Ok(Piece::Item(Kind::Struc, e.end())),
        Head::Open(w, e) => Ok(wrapped(w, e)),
    }
}

// The elements of a stretch.
pub fn places_in(run: Stretch, asked: Option<Kind>) -> Places
    ensures { result ≡ places_of (word_asked asked) (elements_of run.entry) }
{
    let mut i = run.from;
    let mut sum = Places::default();
    // How far a turn goes depends on the object that it meets.
    while i < run.end {
        if sum.settled() {
            return sum;
        }
        if let Some(quiet) = quiet_end(run.message, asked, sum.second.is_some(), i, run.end) {
            i = quiet;
            continue;
        }
        let here = Stretch {
            message: run.message,
            depth: run.depth,
            from: i,
            end: run.end,
        };
        let Ok(piece) = piece_of(here.depth, here.first(), here.behind()) else {
            return sum;
        };
        match piece {
            Piece::Skip => {
                i += 1;
            }
            Piece::Item(kind, past) => {
                sum = sum.then(Places::one(asked, kind, i));
                i += 1 + past;
            }
            Piece::Copies(count, e) => {
                let pattern = here.inside(e);
                sum = sum.then(places_in(pattern, asked).times(count));
                i = pattern.end;
            }
        }
    }
    sum
}
