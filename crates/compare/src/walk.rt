// Two tables walked side by side, from one pair of rows that are not alike to the next.
ghost use Rattle.std.specs.Prelude.{◌≡◌, ◌∷◌, [], ◌+◌, ◌*◌, ◌≤◌, length};
ghost use Rattle.std.specs.Str.{bytes_eq};
ghost use Rattle.std.specs.Iterator.{YieldsFirst, item_count};
ghost use Rattle.format.specs.Lent.{over_at};
ghost use Rattle.compare.specs.Walks.{same_words, data_from, DataIn, rows_alike, Walking, Standing, Skipped, pairs_left};

use format::kinds::{BITS, STRING, STRUC};
use table::rows::{next_row, row_at};

// Whether two runs of as many words are the same. What differs is joined and tested at the end, with no way out of this loop, so that
// the compiler takes several words at a time: `==` takes 71,731 instructions for a note of 60,000, and this 47,300.
fn same(left: &[u64], right: &[u64]) -> bool
    requires { length left.now ≡ length right.now }
    ensures { result ≡ bytes_eq left.now right.now }
{
    let mut joined = 0;
    for (n, word) in left.iter().enumerate() {
        joined |= *word ^ right[n];
    }
    joined == 0
}

// A row of each table.
#[derive(Clone, Copy)]
pub struct Pair {
    pub left: usize,
    pub right: usize,
}

// The pairs of rows that are not alike, from a pair of rows on: each is left behind whole, with its elements.
#[derive(Clone, Copy)]
pub struct Apart<'a> {
    pub left: &'a [u64],
    pub right: &'a [u64],
    pub at: Pair,
}

impl Apart<'_> {
    // Whether `count` data words of the two rows are the same.
    #[inline]
    fn same_data(&self, count: usize) -> bool
        requires left_data { DataIn self.now.left.now self.now.at.left count }
        requires right_data { DataIn self.now.right.now self.now.at.right count }
        ensures { result ≡ same_words self.now.left.now self.now.right.now (data_from self.now.left.now self.now.at.left) (data_from self.now.right.now self.now.at.right) count }
    {
        let Pair { left: p, right: q } = self.at;
        let i = 3 * (self.left[0] as usize) + 4 + (self.left[3 * p + 6] as usize);
        let j = 3 * (self.right[0] as usize) + 4 + (self.right[3 * q + 6] as usize);
        same(&self.left[i..i + count], &self.right[j..j + count])
    }

    // Whether the two rows are alike: the same item if it is one row, or two containers that are gone into.
    #[inline(always)]
    fn alike(&self) -> bool
        requires { Standing self.now }
        ensures { result ≡ rows_alike self.now.left.now self.now.right.now self.now.at.left self.now.at.right }
    {
        let left = row_at(self.left, self.at.left);
        let right = row_at(self.right, self.at.right);
        if left.kind != right.kind || left.a != right.a {
            return false;
        }
        match left.kind {
            BITS => self.same_data((left.a as usize).div_ceil(64)),
            STRING => self.same_data((left.a as usize).div_ceil(8)),
            kind if kind < STRUC => left.b == right.b,
            _ => true,
        }
    }

    // Rows that are alike are left behind one at a time, so of two containers that are gone into the elements are met next.
    #[inline(always)]
    fn skip_alike(&mut self)
        requires { Walking self.old }
        ensures { Skipped self.old self.new }
    {
        let rows = self.left[0] as usize;
        // A `while`, since the place that moves on is the iterator's own.
        while self.at.left < rows && self.alike() {
            self.at.left += 1;
            self.at.right += 1;
        }
    }
}

impl Iterator for Apart<'_> {
    type Item = Pair;

    ghost can_next = { Walking };

    ghost next_gives = { YieldsFirst pairs_left };

    ghost remaining = { item_count pairs_left };

    #[inline(always)]
    fn next(&mut self) -> Option<Pair> {
        self.skip_alike();
        let met = self.at;
        if met.left >= self.left[0] as usize {
            return None;
        }
        self.at = Pair {
            left: next_row(self.left, met.left),
            right: next_row(self.right, met.right),
        };
        Some(met)
    }
}

// Puts the entry `n` into a list.
pub fn put_entry(list: &mut [u64], n: usize, p: u64, q: u64)
    requires { 2 * n + 2 ≤ length list.old }
    ensures { list.new ≡ over_at (2 * n) (p ∷ q ∷ []) list.old }
{
    list[2 * n] = p;
    list[2 * n + 1] = q;
}
