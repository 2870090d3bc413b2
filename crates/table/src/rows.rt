// The rows of words by position: what stands in one, hops from item to item, and what a container's elements must be.
ghost use Rattle.std.specs.Prelude.{◌≡◌, ◌+◌, ◌*◌, ◌<◌, ◌≤◌, length};
ghost use Rattle.table.specs.Rows.{Room, kind_at, a_at, b_at, single, next_row, lands};
ghost use Rattle.table.specs.InOrder.{all_chars, int_at, edt_rows, kind_fits};

use format::kinds::{CHAR, EDT, INT, STRING, STRUC};

// The three words of a row. The kind is a word and no Kind: a lent table may have any word there.
#[derive(Clone, Copy)]
pub struct Row {
    pub kind: u64,
    pub a: u64,
    pub b: u64,
}

// The row `p` of words that have room for it.
pub fn row_at(words: &[u64], p: usize) -> Row
    requires { 3 * p + 7 ≤ length words.now }
    ensures kind { result.kind ≡ kind_at words.now p }
    ensures a { result.a ≡ a_at words.now p }
    ensures b { result.b ≡ b_at words.now p }
{
    let first = 3 * p + 4;
    Row {
        kind: words[first],
        a: words[first + 1],
        b: words[first + 2],
    }
}

// The rows from `from` up to `to` of words that have room for them.
#[derive(Clone, Copy)]
pub struct Rows<'a> {
    pub words: &'a [u64],
    pub from: usize,
    pub to: usize,
    pub ghost room: { Room words.now from to },
}

impl Rows<'_> {
    // The row `p`, one of these.
    pub fn row(self, p: usize) -> Row
        requires { p < self.to }
        ensures kind { result.kind ≡ kind_at self.entry.words.now p }
        ensures a { result.a ≡ a_at self.entry.words.now p }
        ensures b { result.b ≡ b_at self.entry.words.now p }
    {
        row_at(self.words, p)
    }
}

// Whether an item of this kind is one row: all but STRUC and EDT.
#[tactic(auto, unfolding(crate::specs::Rows::single, format::specs::Choice::either))]
pub fn single(kind: u64) -> bool
    ensures { result ≡ single kind }
{
    kind < STRUC || kind == STRING
}

// The row behind the item of the row `p` and its elements.
#[tactic(auto, unfolding(crate::specs::Rows::next_row, format::specs::Choice::pick))]
pub fn next_row(table: &[u64], p: usize) -> usize
    requires { Room table.now (p + 1) (next_row table.now p) }
    ensures { result ≡ next_row table.now p }
{
    let row = row_at(table, p);
    if single(row.kind) {
        p + 1
    } else {
        p + 1 + row.b as usize
    }
}

// Whether `count` items, each followed by its elements, take these rows.
#[tactic(auto, using(crate::proofs::RowLaws::hopping))]
pub fn lands(rows: Rows<'_>, count: u64) -> bool
    ensures { result ≡ lands rows.entry.words.now count rows.entry.from rows.entry.to }
{
    let mut p = rows.from;
    for _ in 0..count {
        if p >= rows.to {
            return false;
        }
        let row = rows.row(p);
        p += 1;
        if !single(row.kind) {
            let beneath = row.b as usize;
            if rows.to - p < beneath {
                return false;
            }
            p += beneath;
        }
    }
    p == rows.to
}

// Whether each of these rows is a CHAR.
#[tactic(auto, using(crate::proofs::RowLaws::passing_chars))]
fn all_chars(rows: Rows<'_>) -> bool
    ensures { result ≡ all_chars rows.entry.words.now rows.entry.from rows.entry.to }
{
    for p in rows.from..rows.to {
        if rows.row(p).kind != CHAR {
            return false;
        }
    }
    true
}

// Whether the row `p` is one of these, and an INT.
#[tactic(auto, unfolding(crate::specs::InOrder::int_at, format::specs::Choice::both))]
fn int_at(rows: Rows<'_>, p: usize) -> bool
    ensures { result ≡ int_at rows.entry.words.now p rows.entry.to }
{
    p < rows.to && rows.row(p).kind == INT
}

// Whether these rows, the elements of an EDT, begin with an INT or a string and then an INT.
#[tactic(auto, unfolding(crate::specs::InOrder::edt_rows, format::specs::Choice::if_lt, format::specs::Choice::both, format::specs::Choice::either))]
fn edt_rows(rows: Rows<'_>) -> bool
    ensures { result ≡ edt_rows rows.entry.words.now rows.entry.from rows.entry.to }
{
    rows.from < rows.to
        && matches!(rows.row(rows.from).kind, INT | STRING)
        && int_at(rows, rows.from + 1)
}

// Whether a container of this kind, with these elements, is a STRUC and no string, or an EDT with the elements of one.
#[tactic(auto, unfolding(crate::specs::InOrder::kind_fits, format::specs::Choice::if_eq))]
pub fn kind_fits(kind: u64, elements: Rows<'_>) -> bool
    ensures { result ≡ kind_fits kind elements.entry.words.now elements.entry.from elements.entry.to }
{
    match kind {
        STRUC => !all_chars(elements),
        EDT => edt_rows(elements),
        _ => false,
    }
}
