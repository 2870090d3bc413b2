// The rows of a table as those of a sheet: the EDT's, and then those of its seven elements. That the words are a table's is a `requires`
// of each test: of a struct, made where `message::read` has filled them, every test would ask for the words again.
ghost use Rattle.std.specs.Prelude.{◌≡◌, ◌+◌, ◌*◌, ◌≤◌, length};
ghost use Rattle.table.specs.Rows.{rows_of};
ghost use Rattle.measure.specs.SheetRows.{SomeTable, is_int, is_name, is_type, is_unit, is_figure, figure_rows, are_figures, are_elements, is_one_edt, is_sheet};

use crate::unit::Unit;
use format::kinds::{EDT, EMPTY, INT, STRING, XTRA};
use table::rows::{Row, row_at};

// The row of each element; that of the EDT is row 0.
const TYPE: usize = 1;

const VERSION: usize = 2;

pub const ORDER: usize = 3;

pub const UNIT: usize = 4;

pub const CHEST: usize = 5;

pub const WAIST: usize = 6;

pub const SLEEVE: usize = 7;

// All rows of a sheet, and those of its elements.
const ROWS: u64 = 8;

const ELEMENTS: u64 = 7;

// The type by number. By name it is a string of seven characters: so many, where the table has them, and what they are.
const MEASURE: u64 = 12;

const LETTERS: u64 = 7;

const NAME: usize = 28;

const MEASURE_NAME: u64 = 0x4d45_4153_5552_4500;

const VERSION_1: u64 = 1;

// The table of a sheet by number, with 0 for order number, unit and figures.
pub const BLANK: [u64; 28] = [
    // rows, outermost items, where the data begins, data words
    ROWS, 1, 28, 0,
    // the EDT
    EDT, ELEMENTS, ELEMENTS,
    // type and version
    INT, 0, MEASURE, INT, 0, VERSION_1,
    // order number and unit
    INT, 0, 0, XTRA, 0, 0,
    // chest, waist and sleeve
    INT, 0, 0, INT, 0, 0, INT, 0, 0,
];

// Its words for those.
pub const ORDER_WORD: usize = 15;

pub const UNIT_WORD: usize = 18;

pub const CHEST_WORD: usize = 21;

pub const WAIST_WORD: usize = 24;

pub const SLEEVE_WORD: usize = 27;

// Whether the row `p` is the INT `n`.
#[tactic(auto, unfolding(crate::specs::SheetRows::is_int, format::specs::Choice::if_eq, format::specs::Choice::pick))]
fn is_int(table: &[u64], p: usize, n: u64) -> bool
    requires { 3 * p + 7 ≤ length table.now }
    ensures { result ≡ is_int table.now p n }
{
    let row = row_at(table, p);
    row.kind == INT && row.b == n
}

// Whether the type is given by name.
#[tactic(auto, unfolding(crate::specs::SheetRows::is_name, format::specs::Choice::if_eq, format::specs::Choice::pick))]
fn is_name(table: &[u64]) -> bool
    requires { SomeTable table.now × (rows_of table.now ≡ 8) }
    ensures { result ≡ is_name table.now }
{
    let row = row_at(table, TYPE);
    if row.kind != STRING || row.a != LETTERS {
        return false;
    }
    table[NAME] == MEASURE_NAME
}

// Whether the type is that of a measure sheet.
#[tactic(auto, unfolding(crate::specs::SheetRows::is_type, format::specs::Choice::pick))]
fn is_type(table: &[u64]) -> bool
    requires { SomeTable table.now × (rows_of table.now ≡ 8) }
    ensures { result ≡ is_type table.now }
{
    is_int(table, TYPE, MEASURE) || is_name(table)
}

// Whether the unit is one of the two.
#[tactic(auto, unfolding(crate::specs::SheetRows::is_unit, format::specs::Choice::if_eq, format::specs::Choice::pick))]
fn is_unit(table: &[u64]) -> bool
    requires { 28 ≤ length table.now }
    ensures { result ≡ is_unit table.now }
{
    let row = row_at(table, UNIT);
    row.kind == XTRA && Unit::is_known(row.b)
}

// Whether an item of this kind can be a figure: an INT, or EMPTY.
#[tactic(auto, unfolding(crate::specs::SheetRows::is_figure, format::specs::Choice::if_eq, format::specs::Choice::pick))]
fn is_figure(kind: u64) -> bool
    ensures { result ≡ is_figure kind }
{
    kind == INT || kind == EMPTY
}

// The rows of the three figures.
pub fn figure_rows(table: &[u64]) -> [Row; 3]
    requires { 28 ≤ length table.now }
    ensures { result ≡ figure_rows table.now }
{
    [
        row_at(table, CHEST),
        row_at(table, WAIST),
        row_at(table, SLEEVE),
    ]
}

// Whether all three figures are such.
fn are_figures(table: &[u64]) -> bool
    requires { 28 ≤ length table.now }
    ensures { result ≡ are_figures table.now }
{
    figure_rows(table).iter().all(|row| is_figure(row.kind))
}

// Whether the seven elements are those of a sheet, whatever the figures.
#[tactic(auto, unfolding(crate::specs::SheetRows::are_elements, format::specs::Choice::if_eq, format::specs::Choice::pick))]
fn are_elements(table: &[u64]) -> bool
    requires { SomeTable table.now × (rows_of table.now ≡ 8) }
    ensures { result ≡ are_elements table.now }
{
    is_type(table)
        && is_int(table, VERSION, VERSION_1)
        && row_at(table, ORDER).kind == INT
        && is_unit(table)
        && are_figures(table)
}

// Whether a table is one EDT with seven rows beneath it and none beside it.
#[tactic(auto, unfolding(crate::specs::SheetRows::is_one_edt, format::specs::Choice::if_eq, format::specs::Choice::pick))]
fn is_one_edt(table: &[u64]) -> bool
    requires { SomeTable table.now }
    ensures { result ≡ is_one_edt table.now }
{
    if table[0] != ROWS {
        return false;
    }
    let row = row_at(table, 0);
    row.kind == EDT && row.b == ELEMENTS
}

// Whether a table is that of a sheet, whatever the figures.
#[tactic(auto, unfolding(crate::specs::SheetRows::is_sheet, format::specs::Choice::pick))]
pub fn is_sheet(table: &[u64]) -> bool
    requires { SomeTable table.now }
    ensures { result ≡ is_sheet table.now }
{
    is_one_edt(table) && are_elements(table)
}
