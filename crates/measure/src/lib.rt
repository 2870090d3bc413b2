// The measure sheet itself: read from a message, and written as one. The contracts of `read` and `write` are one equation each with
// the meaning in specs/Sheets.antt: the answer, and every lent word and byte afterwards.
#![tactic(auto)]

ghost use Rattle.std.specs.Prelude.{◌≡◌};
ghost use Rattle.message.specs.Told.{write_told};
ghost use Rattle.measure.specs.Sheets.{measuring, measure_writing};
ghost use Rattle.measure.specs.Told.{measure_told, passed_answer, refused_answer, unwritten_answer};

use crate::figures::{all_fair, judged};
use crate::rows::{BLANK, CHEST_WORD, ORDER_WORD, SLEEVE_WORD, UNIT_WORD, WAIST_WORD};
use crate::unit::Unit;
use format::fault::Refusal;
use format::signed::word_of;
use message::{Reading, Writing};

mod figures;
mod rows;
mod unit;

// Reading's answer: what message::read tells; and with 0 the order number, the unit, the figures, and these in micrometres. With any
// other number all of these are 0. Numbers and no Result: C is given this struct.
#[repr(C)]
#[derive(Clone, Copy, Default)]
pub struct Measuring {
    pub number: usize,
    pub place: usize,
    pub words: usize,
    pub missing: usize,
    pub order: i64,
    pub unit: u64,
    pub chest: u64,
    pub waist: u64,
    pub sleeve: u64,
    pub chest_um: u64,
    pub waist_um: u64,
    pub sleeve_um: u64,
}

// What reading answered, without figures.
impl From<Reading> for Measuring {
    ghost from_gives = { λ r m. m ≡ passed_answer r };

    fn from(reading: Reading) -> Measuring {
        Measuring {
            number: reading.number,
            place: reading.place,
            words: reading.words,
            missing: reading.missing,
            ..Measuring::default()
        }
    }
}

// A refusal of a table that was read.
impl From<Refusal> for Measuring {
    ghost from_gives = { λ why m. m ≡ refused_answer why };

    fn from(why: Refusal) -> Measuring {
        Measuring {
            number: why.number(),
            ..Measuring::default()
        }
    }
}

// Any bytes to the figures of the measure sheet that they say, or a numbered refusal. Reading's own refusals leave the table as lent;
// with the others, as with 0, it holds the reading.
pub fn read(message: &[u8], table: &mut [u64]) -> Measuring
    ensures { measure_told result table.new ≡ measuring message.now table.old }
{
    let reading = message::read(message, table);
    // What `read` answers is the struct that C is given, so its number is tested.
    if reading.number != 0 {
        return reading.into();
    }
    match judged(table, reading.words) {
        Ok(figures) => figures,
        Err(why) => why.into(),
    }
}

// A sheet that is not written.
fn unwritten(why: Refusal) -> Writing
    ensures { result ≡ unwritten_answer why }
{
    Writing {
        number: why.number(),
        length: 0,
    }
}

// A sheet of these figures to its normal form, or a numbered refusal that leaves the output as lent.
pub fn write(
    order: i64,
    unit: u64,
    chest: u64,
    waist: u64,
    sleeve: u64,
    output: &mut [u8],
) -> Writing
    ensures { write_told result output.new ≡ measure_writing order unit chest waist sleeve output.old }
{
    if !Unit::is_known(unit) {
        return unwritten(Refusal::NotASheet);
    }
    if !all_fair([chest, waist, sleeve]) {
        return unwritten(Refusal::FigureRange);
    }
    let mut table = BLANK;
    table[ORDER_WORD] = word_of(order);
    table[UNIT_WORD] = unit;
    table[CHEST_WORD] = chest;
    table[WAIST_WORD] = waist;
    table[SLEEVE_WORD] = sleeve;
    message::write(&table, output)
}
