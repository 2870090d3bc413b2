// The normal form of the items in a table: its length, and its bytes; or why there is none.
#![tactic(auto)]

mod bits;
mod leaves;
mod numbers;
mod place;
mod put;
mod single;
mod survey;

ghost use Rattle.std.specs.Prelude.{◌≡◌, Err};
ghost use Rattle.format.specs.Answers.{writing};
ghost use Rattle.table.specs.Rows.{rows_of, words_of};
ghost use Rattle.writer.specs.declared.Unwritten.TheVariants.{Refused};
ghost use Rattle.writer.specs.Surveys.{TooDeep};
ghost use Rattle.writer.specs.Verdicts.{verdict, written};
ghost use Rattle.format.specs.Refusals.{depth_limit};

use crate::put::write_run;
use crate::survey::{Unfit, survey_run};
use format::fault::Refusal;
use format::limits::{DEEPEST, MOST_BYTES};
use table::header::Framed;
use table::judge::rows_ok;

// Why nothing is written: the table is refused; or the output is too short for a normal form of so many bytes.
#[derive(Clone, Copy, Debug, PartialEq, Eq)]
pub enum Unwritten {
    Refused(Refusal),
    Short(usize),
}

impl From<Refusal> for Unwritten {
    ghost from_gives = { λ r e. e ≡ Refused r };

    fn from(refusal: Refusal) -> Self {
        Unwritten::Refused(refusal)
    }
}

// Why a table is refused whose items, if it has any, stand too deep: so deep that the survey gave up, and each row is judged by itself.
#[tactic(auto, using(crate::proofs::TopLaws::deep))]
fn too_deep(table: Framed<'_>) -> Refusal
    requires { TooDeep table.words.now (words_of table.words.now) depth_limit 0 0 (rows_of table.words.now) }
    ensures { Err result ≡ verdict table.entry.words.now }
{
    if rows_ok(table) {
        Refusal::TooNested
    } else {
        Refusal::NotATable
    }
}

// The length of a table's normal form, or why it has none.
#[tactic(auto, using(crate::proofs::TopLaws::nothing))]
fn normal_length(table: Framed<'_>) -> Result<usize, Refusal>
    ensures { result ≡ verdict table.entry.words.now }
{
    match survey_run(table, 0, table.count(), 0, DEEPEST) {
        Err(Unfit::Wrong) => Err(Refusal::NotATable),
        Err(Unfit::Deep) => Err(too_deep(table)),
        Ok(found) => {
            if found.items != table.items() || found.base != table.data() {
                return Err(Refusal::NotATable);
            }
            if found.bytes > MOST_BYTES {
                return Err(Refusal::NormalLong);
            }
            Ok(found.bytes)
        }
    }
}

// The normal form of a table's items, over the front of the output, and its length. Nothing is written unless all of it fits, and
// nothing behind it.
pub fn write(table: &[u64], output: &mut [u8]) -> Result<usize, Unwritten>
    ensures { written result output.new ≡ writing table.now output.old }
{
    let Some(table) = Framed::of(table) else {
        return Err(Refusal::NotATable.into());
    };
    let length = normal_length(table)?;
    let short = output.len() < length;
    if short {
        return Err(Unwritten::Short(length));
    }
    // Of no items nothing is written, and whoever asks for their length is answered at once.
    if length > 0 {
        write_run(table, 0, table.count(), DEEPEST, output);
    }
    Ok(length)
}
