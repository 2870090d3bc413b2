// Whether words are a table: each row is judged by itself, and no row more than once as an element of another.
ghost use Rattle.std.specs.Prelude.{◌≡◌, ◌≤◌, ◌<◌};
ghost use Rattle.format.specs.Tables.{items_of};
ghost use Rattle.table.specs.Rows.{rows_of, words_of, data_to};
ghost use Rattle.table.specs.InOrder.{group_ok, values, plain_ok, RowJudged, RowsJudged, is_some};

use crate::header::Framed;
use crate::rows::{Row, kind_fits, lands};
use crate::words::{bits_row, string_row};
use format::kinds::{BITS, BOOL, CHAR, EDT, EMPTY, INT, STRING, STRUC, XTRA};

// Whether the row `p` has the elements that it claims, and is a STRUC or an EDT that may have them.
#[tactic(auto, unfolding(crate::specs::InOrder::group_ok, crate::specs::InOrder::kind_ok, format::specs::Choice::if_lt, format::specs::Choice::both))]
fn group_ok(table: Framed<'_>, p: usize) -> bool
    requires { p < rows_of table.words.now }
    ensures { result ≡ group_ok table.entry.words.now (rows_of table.entry.words.now) p }
{
    let row = table.row(p);
    let beneath = row.b as usize;
    if table.count() - (p + 1) < beneath {
        return false;
    }
    let elements = table.rows(p + 1, p + 1 + beneath);
    lands(elements, row.a) && kind_fits(row.kind, elements)
}

// How many values the last word of a row has by its kind, where the row says one number from 0 up; other kinds have none.
#[tactic(auto, unfolding(crate::specs::InOrder::values, format::specs::Choice::if_eq))]
fn values(kind: u64) -> u64
    requires { kind ≡ 1 → ⊥ }
    ensures { result ≡ values kind }
{
    match kind {
        CHAR => 128,
        BOOL => 2,
        EMPTY => 1,
        XTRA => 4,
        _ => 0,
    }
}

// Whether a row says one number, and one that its kind has.
#[tactic(auto, unfolding(crate::specs::InOrder::plain_ok, format::specs::Choice::if_eq))]
pub fn plain_ok(row: Row) -> bool
    ensures { result ≡ plain_ok row.kind row.a row.b }
{
    row.a == 0 && (row.kind == INT || row.b < values(row.kind))
}

// The data words that the row `p` takes, if it is in order, where `base` data words came before it.
#[tactic(auto, using(crate::proofs::RowLaws::judging_row))]
fn judge_row(table: Framed<'_>, p: usize, base: usize) -> Option<usize>
    requires p_in_rows { p < rows_of table.words.now }
    requires base_value { (base ≡ data_to table.words.now p) × (base ≤ words_of table.words.now) }
    ensures { RowJudged table.entry.words.now p base result }
{
    let row = table.row(p);
    match row.kind {
        BITS => bits_row(table, row.a as usize, row.b as usize, base),
        STRING => string_row(table, row.a as usize, row.b as usize, base),
        STRUC | EDT => group_ok(table, p).then_some(0),
        _ => plain_ok(row).then_some(0),
    }
}

// The data words that all rows take, if each is in order. Most rows are INTs, of which less is asked.
#[tactic(auto, using(crate::proofs::RowLaws::judging_rows), unfolding(crate::specs::Rows::data_to))]
fn judge_rows(table: Framed<'_>) -> Option<usize>
    ensures { RowsJudged table.entry.words.now result }
{
    let mut base = 0;
    for p in 0..table.count() {
        let row = table.row(p);
        if row.kind != INT || row.a != 0 {
            base += judge_row(table, p, base)?;
        }
    }
    Some(base)
}

// Whether the rows and data words behind a header in order are those of its items.
#[tactic(auto, using(crate::proofs::Whole::judging))]
pub fn rows_ok(table: Framed<'_>) -> bool
    ensures { result ≡ is_some (items_of table.entry.words.now) }
{
    lands(table.rows(0, table.count()), table.items()) && judge_rows(table) == Some(table.data())
}

// Whether any words are a table.
#[tactic(auto, using(crate::proofs::Whole::unheaded))]
pub fn is_table(table: &[u64]) -> bool
    ensures { result ≡ is_some (items_of table.now) }
{
    Framed::of(table).is_some_and(rows_ok)
}
