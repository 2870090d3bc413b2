// The header of a table: how many items, rows and data words there are, and where they stand.
ghost use Rattle.std.specs.Prelude.{◌≡◌, ℕ, ◌+◌, ◌*◌, ◌^◌, ◌<◌, ◌≤◌, MatchOption, slice_index};
ghost use Rattle.table.specs.Rows.{Headed, rows_of, words_of, kind_at, a_at, b_at};

use crate::rows::{Row, Rows, row_at};
use format::limits::{MOST_ROWS, MOST_WORDS};

// Words whose header is in order: the rows and data words that it tells of are all there, whatever stands in them.
#[derive(Clone, Copy)]
pub struct Framed<'a> {
    pub words: &'a [u64],
    pub ghost in_order: { Headed words.now },
    pub ghost in_range: { (i : ℕ) → slice_index words.now i < 2 ^ 64 },
}

impl<'a> Framed<'a> {
    // These words, if their header is in order.
    pub fn of(words: &'a [u64]) -> Option<Framed<'a>>
        ensures { MatchOption result (Headed words.now → ⊥) (λ t. t.words.now ≡ words.now) }
    {
        if words.len() < 4 {
            return None;
        }
        let rows = words[0] as usize;
        if rows > MOST_ROWS || words[2] as usize != 4 + 3 * rows {
            return None;
        }
        let data = words[3] as usize;
        if data > MOST_WORDS || words.len() < 3 * rows + 4 + data {
            return None;
        }
        Some(Framed { words })
    }

    // How many rows there are.
    pub fn count(self) -> usize
        ensures { result ≡ rows_of self.entry.words.now }
    {
        self.words[0] as usize
    }

    // How many items the header tells of.
    pub fn items(self) -> u64
        ensures { result ≡ slice_index self.entry.words.now 1 }
    {
        self.words[1]
    }

    // How many data words there are.
    pub fn data(self) -> usize
        ensures { result ≡ words_of self.entry.words.now }
    {
        self.words[3] as usize
    }

    // Where the data words begin.
    pub fn data_start(self) -> usize
        ensures { result ≡ 3 * rows_of self.entry.words.now + 4 }
    {
        3 * self.count() + 4
    }

    // The row `p`.
    pub fn row(self, p: usize) -> Row
        requires { p < rows_of self.words.now }
        ensures kind { result.kind ≡ kind_at self.entry.words.now p }
        ensures a { result.a ≡ a_at self.entry.words.now p }
        ensures b { result.b ≡ b_at self.entry.words.now p }
    {
        row_at(self.words, p)
    }

    // The rows from `from` up to `to`.
    pub fn rows(self, from: usize, to: usize) -> Rows<'a>
        requires { (from ≤ to) × (to ≤ rows_of self.words.now) }
        ensures words { result.words.now ≡ self.entry.words.now }
        ensures from { result.from ≡ from }
        ensures to { result.to ≡ to }
    {
        Rows {
            words: self.words,
            from,
            to,
        }
    }
}
