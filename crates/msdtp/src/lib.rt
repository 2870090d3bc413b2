// The public operations for C, as declared in include/msdtp.h. Each is the operation of the crate message, compare, measure,
// salvage or explain, with its contract.
#![tactic(auto)]

ghost use Rattle.std.specs.Prelude.{◌≡◌};
ghost use Rattle.format.specs.Answers.{reading, writing, normalising};
ghost use Rattle.message.specs.Told.{read_told, write_told, normalise_told};
ghost use Rattle.compare.specs.Differences.{comparing};
ghost use Rattle.compare.specs.Told.{compare_told};
ghost use Rattle.measure.specs.Sheets.{measuring, measure_writing};
ghost use Rattle.measure.specs.Told.{measure_told};
ghost use Rattle.salvage.specs.Mending.{salvaging};
ghost use Rattle.salvage.specs.Told.{salvage_told};
ghost use Rattle.explain.specs.Explanations.{explaining, in_numbers};
ghost use Rattle.explain.specs.Told.{explain_told};

use compare::Comparing;
use explain::Explaining;
use measure::Measuring;
use message::{Normalising, Reading, Writing};
use salvage::Salvaging;

#[unsafe(no_mangle)]
pub extern "C" fn msdtp_read(message: &[u8], table: &mut [u64]) -> Reading
    ensures { read_told result table.new ≡ reading message.now table.old }
{
    message::read(message, table)
}

#[unsafe(no_mangle)]
pub extern "C" fn msdtp_write(table: &[u64], output: &mut [u8]) -> Writing
    ensures { write_told result output.new ≡ writing table.now output.old }
{
    message::write(table, output)
}

#[unsafe(no_mangle)]
pub extern "C" fn msdtp_normalise(
    message: &[u8],
    table: &mut [u64],
    output: &mut [u8],
) -> Normalising
    ensures { normalise_told result table.new output.new ≡ normalising message.now table.old output.old }
{
    message::normalise(message, table, output)
}

#[unsafe(no_mangle)]
pub extern "C" fn msdtp_compare(left: &[u64], right: &[u64], list: &mut [u64]) -> Comparing
    ensures { compare_told result list.new ≡ comparing left.now right.now list.old }
{
    compare::compare(left, right, list)
}

#[unsafe(no_mangle)]
pub extern "C" fn msdtp_measure_read(message: &[u8], table: &mut [u64]) -> Measuring
    ensures { measure_told result table.new ≡ measuring message.now table.old }
{
    measure::read(message, table)
}

#[unsafe(no_mangle)]
pub extern "C" fn msdtp_measure_write(
    order: i64,
    unit: u64,
    chest: u64,
    waist: u64,
    sleeve: u64,
    output: &mut [u8],
) -> Writing
    ensures { write_told result output.new ≡ measure_writing order unit chest waist sleeve output.old }
{
    measure::write(order, unit, chest, waist, sleeve, output)
}

#[unsafe(no_mangle)]
pub extern "C" fn msdtp_salvage(message: &[u8], output: &mut [u8], list: &mut [u64]) -> Salvaging
    ensures { salvage_told result output.new list.new ≡ salvaging message.now output.old list.old }
{
    salvage::salvage(message, output, list)
}

#[unsafe(no_mangle)]
pub extern "C" fn msdtp_explain(message: &[u8], words_lent: usize, list: &mut [u64]) -> Explaining
    ensures { explain_told result list.new ≡ in_numbers (explaining message.now words_lent list.old) }
{
    explain::explain(message, words_lent, list)
}
