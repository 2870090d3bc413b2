// What the rows of a sheet come to: its figures, or why it has none that can be cut from.
ghost use Rattle.std.specs.Prelude.{◌≡◌, ◌≤◌, length};
ghost use Rattle.std.specs.List.{list_all};
ghost use Rattle.measure.specs.Sheets.{fair, any_empty, measured};
ghost use Rattle.measure.specs.SheetRows.{SomeTable, sheet_at, Measurable, read_into};
ghost use Rattle.measure.specs.Told.{measure_told, FiguresIn};

use crate::Measuring;
use crate::rows::{ORDER, UNIT, figure_rows, is_sheet};
use crate::unit::Unit;
use format::fault::Refusal;
use format::kinds::EMPTY;
use format::signed::value_of;
use table::rows::row_at;

// The largest figure.
const MOST: u64 = 20000;

// Whether a number is in the range of figures.
#[tactic(auto, unfolding(crate::specs::Sheets::fair))]
fn fair(n: u64) -> bool
    ensures { result ≡ fair n }
{
    (1..=MOST).contains(&n)
}

// Whether all three numbers are. Inlined, so that no array is made of them: `write` refuses with 22 in 74 instructions, and else in 78.
#[inline(always)]
pub fn all_fair(figures: [u64; 3]) -> bool
    ensures { result ≡ list_all fair figures }
{
    figures.iter().all(|n| fair(*n))
}

// Whether a figure is EMPTY.
fn any_empty(table: &[u64]) -> bool
    requires { 28 ≤ length table.now }
    ensures { result ≡ any_empty (sheet_at table.now) }
{
    figure_rows(table).iter().any(|row| row.kind == EMPTY)
}

// The figures of a sheet, which are all there and in range.
fn measured(table: &[u64], words: usize) -> Measuring
    requires { Measurable table.now }
    ensures { measure_told result table.now ≡ measured (sheet_at table.now) (read_into words table.now) }
{
    let unit = Unit::try_from(row_at(table, UNIT).b).unwrap();
    let [chest, waist, sleeve] = figure_rows(table);
    let each = unit.micrometres();
    Measuring {
        number: 0,
        place: 0,
        words,
        missing: 0,
        order: value_of(row_at(table, ORDER).b),
        unit: unit.code(),
        chest: chest.b,
        waist: waist.b,
        sleeve: sleeve.b,
        chest_um: each * chest.b,
        waist_um: each * waist.b,
        sleeve_um: each * sleeve.b,
    }
}

// What is answered for a table that was read, of so many words: its figures, or why it has none.
pub fn judged(table: &[u64], words: usize) -> Result<Measuring, Refusal>
    requires { SomeTable table.now }
    ensures { FiguresIn table.now words result }
{
    if !is_sheet(table) {
        return Err(Refusal::NotASheet);
    }
    if any_empty(table) {
        return Err(Refusal::FigureEmpty);
    }
    let [chest, waist, sleeve] = figure_rows(table);
    if !all_fair([chest.b, waist.b, sleeve.b]) {
        return Err(Refusal::FigureRange);
    }
    Ok(measured(table, words))
}
