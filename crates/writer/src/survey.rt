// A table's rows judged and measured in one walk: whether a run of rows is that of items, how many they are, how long their
// normal form is, and how many data words they take; or that they stand too deep.
ghost use Rattle.std.specs.Prelude.{◌≡◌, ◌+◌, ◌≤◌, ◌<◌};
ghost use Rattle.table.specs.Rows.{Room, rows_of, words_of, kind_at};
ghost use Rattle.writer.specs.Surveys.{Small, SmallRows, LeavesAt, RunSurveyed, ContainerAt};

use crate::leaves::bits_length;
use crate::numbers::{int_length, size_length};
use crate::place::Place;
use crate::single::{CHARS, INTS, OneByte};
use format::kinds::{BITS, CHAR, INT, STRING, STRUC};
use table::header::Framed;
use table::judge::plain_ok;
use table::rows::{Rows, kind_fits};
use table::words::{bits_row, string_row};

// Some items: the bytes of their normal form, how many they are, and the data words up to their end.
#[derive(Clone, Copy)]
pub struct Surveyed {
    pub bytes: usize,
    pub items: u64,
    pub base: usize,
}

// Why rows have no normal form: they are not those of items; or more containers stand inside one another than were allowed.
#[derive(Clone, Copy)]
pub enum Unfit {
    Wrong,
    Deep,
}

// Some items without elements: their bytes, the row behind them, and the data words up to it.
#[derive(Clone, Copy)]
struct Leaves {
    bytes: usize,
    next: usize,
    base: usize,
}

// 0 where the row `q` is that of such an item; otherwise some number, so that four rows are joined by `|` and tested once.
#[inline(always)]
#[tactic(auto, using(crate::proofs::Surveying::smallness))]
fn strange(rows: Rows<'_>, q: usize, one: OneByte) -> u64
    requires { q < rows.to }
    ensures small { result ≡ 0 → Small rows.entry.words.now one.kind one.bound q }
    ensures value { Small rows.entry.words.now one.kind one.bound q → result ≡ 0 }
{
    let row = rows.row(q);
    (row.kind ^ one.kind) | row.a | (row.b / one.bound)
}

// From the first of these rows on, four at a time, those of such items.
#[inline(always)]
#[tactic(auto, using(crate::proofs::Surveying::alike))]
fn fours_until(rows: Rows<'_>, one: OneByte) -> usize
    ensures { SmallRows rows.entry.words.now one.kind one.bound rows.entry.from rows.entry.to result }
{
    let fours = (rows.to - rows.from) / 4;
    for four in 0..fours {
        let q = rows.from + 4 * four;
        let first = strange(rows, q, one) | strange(rows, q + 1, one);
        let second = strange(rows, q + 2, one) | strange(rows, q + 3, one);
        if first | second != 0 {
            return q;
        }
    }
    rows.from + 4 * fours
}

// How far from the first of these rows on they are those of such items.
#[inline(always)]
#[tactic(auto, using(crate::proofs::Surveying::alike))]
fn small_until(rows: Rows<'_>, one: OneByte) -> usize
    ensures small_rows { SmallRows rows.entry.words.now one.kind one.bound rows.entry.from rows.entry.to result }
    ensures stops { result < rows.entry.to → Small rows.entry.words.now one.kind one.bound result → ⊥ }
{
    for q in fours_until(rows, one)..rows.to {
        if strange(rows, q, one) != 0 {
            return q;
        }
    }
    rows.to
}

// The INTs from the place on that take one byte each, or the one that takes more.
fn survey_ints(at: Place<'_>) -> Option<Leaves>
    requires { kind_at at.table.words.now at.p ≡ 1 }
    ensures { LeavesAt at.entry result }
{
    let row = at.table.row(at.p);
    if row.a != 0 {
        return None;
    }
    if row.b < INTS.bound {
        let next = small_until(at.table.rows(at.p, at.to), INTS);
        return Some(Leaves {
            bytes: next - at.p,
            next,
            base: at.base,
        });
    }
    Some(Leaves {
        bytes: int_length(row.b),
        next: at.p + 1,
        base: at.base,
    })
}

// The one row of the place, of any kind but that of an INT or a container.
fn survey_leaf(at: Place<'_>) -> Option<Leaves>
    requires { (kind_at at.table.words.now at.p < 7) × (kind_at at.table.words.now at.p ≡ 1 → ⊥) }
    ensures { LeavesAt at.entry result }
{
    let row = at.table.row(at.p);
    let next = at.p + 1;
    if row.kind == BITS {
        let bits = row.a as usize;
        let used = bits_row(at.table, bits, row.b as usize, at.base)?;
        return Some(Leaves {
            bytes: bits_length(bits),
            next,
            base: at.base + used,
        });
    }
    plain_ok(row).then_some(Leaves {
        bytes: 1,
        next,
        base: at.base,
    })
}

// Some of the items without elements from the place on.
fn survey_leaves(at: Place<'_>) -> Option<Leaves>
    requires { kind_at at.table.words.now at.p < 7 }
    ensures { LeavesAt at.entry result }
{
    match at.table.row(at.p).kind {
        CHAR => {
            let next = small_until(at.table.rows(at.p, at.to), CHARS);
            (next > at.p).then_some(Leaves {
                bytes: next - at.p,
                next,
                base: at.base,
            })
        }
        INT => survey_ints(at),
        _ => survey_leaf(at),
    }
}

// The string whose row stands at the place; `depth` containers are allowed, itself among them.
fn survey_string(at: Place<'_>, depth: usize) -> Result<Surveyed, Unfit>
    requires { kind_at at.table.words.now at.p ≡ 9 }
    ensures { ContainerAt depth at.entry result }
{
    if depth == 0 {
        return Err(Unfit::Deep);
    }
    let row = at.table.row(at.p);
    let size = row.a as usize;
    let Some(used) = string_row(at.table, size, row.b as usize, at.base) else {
        return Err(Unfit::Wrong);
    };
    Ok(Surveyed {
        bytes: 1 + size_length(size) + size,
        items: 1,
        base: at.base + used,
    })
}

// The container that is no string whose row stands at the place, with its elements; `depth` containers are allowed, itself among them.
#[cycle(survey_container_survey_run)]
fn survey_container(at: Place<'_>, depth: usize) -> Result<Surveyed, Unfit>
    requires { (7 ≤ kind_at at.table.words.now at.p) × (kind_at at.table.words.now at.p ≡ 9 → ⊥) }
    ensures { ContainerAt depth at.entry result }
{
    let row = at.table.row(at.p);
    if depth == 0 {
        return Err(Unfit::Deep);
    }
    let beneath = row.b as usize;
    if at.to - (at.p + 1) < beneath {
        return Err(Unfit::Wrong);
    }
    let next = at.p + 1 + beneath;
    let inner = survey_run(at.table, at.p + 1, next, at.base, depth - 1)?;
    if inner.items != row.a || !kind_fits(row.kind, at.table.rows(at.p + 1, next)) {
        return Err(Unfit::Wrong);
    }
    Ok(Surveyed {
        bytes: 1 + size_length(inner.bytes) + inner.bytes,
        items: 1,
        base: inner.base,
    })
}

// The rows from `from` up to `to`, where `before` data words came before them; `depth` containers are allowed.
#[cycle(survey_container_survey_run)]
pub fn survey_run(
    table: Framed<'_>,
    from: usize,
    to: usize,
    before: usize,
    depth: usize,
) -> Result<Surveyed, Unfit>
    requires from_le_to { (from ≤ to) × (to ≤ rows_of table.words.now) }
    requires fits { before ≤ words_of table.words.now }
    ensures { RunSurveyed table.entry.words.now depth before from to result }
{
    let mut p = from;
    let mut base = before;
    let mut items: u64 = 0;
    let mut bytes: usize = 0;
    // The step is an item's rows, or those of many, which no range counts.
    while p < to {
        let at = Place { table, p, to, base };
        let row = table.row(p);
        if row.kind < STRUC {
            let Some(some) = survey_leaves(at) else {
                return Err(Unfit::Wrong);
            };
            bytes += some.bytes;
            items += (some.next - p) as u64;
            base = some.base;
            p = some.next;
        } else if row.kind == STRING {
            let one = survey_string(at, depth)?;
            bytes += one.bytes;
            items += one.items;
            base = one.base;
            p += 1;
        } else {
            let one = survey_container(at, depth)?;
            bytes += one.bytes;
            items += one.items;
            base = one.base;
            p += 1 + row.b as usize;
        }
    }
    Ok(Surveyed { bytes, items, base })
}
