// The public operations on RFC 713 messages. Each contract is one equation with the meaning in the crate format
// (specs/Answers.antt): the answer, and every lent word and byte afterwards.
#![tactic(auto)]

ghost use Rattle.std.specs.Prelude.{◌≡◌};
ghost use Rattle.format.specs.Answers.{reading, writing, normalising};
ghost use Rattle.format.specs.Refused.{number_of, meant};
ghost use Rattle.message.specs.Told.{read_told, read_answer, fault_answer, write_told, unwritten_answer, normalise_told};

use fill::fill;
use format::fault::{Fault, Refusal};
use format::limits::{MOST_BYTES, too_many};
use scan::scan_message;
use writer::Unwritten;

// Reading's answer: 0 or the number of a refusal, its place, the words used or needed, and the bytes missing.
// Numbers and no Result: C is given this struct.
#[repr(C)]
#[derive(Clone, Copy, Debug, PartialEq, Eq)]
pub struct Reading {
    pub number: usize,
    pub place: usize,
    pub words: usize,
    pub missing: usize,
}

// Writing's answer: 0 or the number of a refusal, and the length written or needed. Numbers and no Result: C is given this struct.
#[repr(C)]
#[derive(Clone, Copy, Debug, PartialEq, Eq)]
pub struct Writing {
    pub number: usize,
    pub length: usize,
}

// Normalising's answer: the first refusal's number or 0, reading's place, words and missing bytes, and writing's length.
// Numbers and no Result: C is given this struct.
#[repr(C)]
#[derive(Clone, Copy, Debug, PartialEq, Eq)]
pub struct Normalising {
    pub number: usize,
    pub place: usize,
    pub words: usize,
    pub length: usize,
    pub missing: usize,
}

impl Reading {
    // The answer for a message that is laid out in so many words.
    pub fn accepted(words: usize) -> Reading
        ensures { result ≡ read_answer 0 words }
    {
        Reading {
            number: 0,
            place: 0,
            words,
            missing: 0,
        }
    }

    // The answer for one without a fault that is not, and the words needed where more are to be lent.
    pub fn refused(refusal: Refusal, words: usize) -> Reading
        ensures { result ≡ read_answer (number_of refusal) words }
    {
        Reading {
            number: refusal.number(),
            place: 0,
            words,
            missing: 0,
        }
    }
}

// The answer for a message with a fault.
impl From<Fault> for Reading {
    ghost from_gives = { λ f r. r ≡ fault_answer (meant f) };

    fn from(f: Fault) -> Reading {
        Reading {
            number: f.refusal.number(),
            place: f.place,
            words: 0,
            missing: f.missing,
        }
    }
}

// Any bytes to a table of items, or a numbered refusal that leaves the table as lent.
#[tactic(auto, using(crate::proofs::ReadCases::many_told))]
pub fn read(message: &[u8], table: &mut [u64]) -> Reading
    ensures { read_told result table.new ≡ reading message.now table.old }
{
    if message.len() > MOST_BYTES {
        return Reading::refused(Refusal::TooLong, 0);
    }
    match scan_message(message) {
        Err(fault) => Reading::from(fault),
        Ok(sum) => {
            let many = too_many(sum.rows, sum.words);
            if many {
                return Reading::refused(Refusal::TooMany, 0);
            }
            let needed = 4 + 3 * sum.rows + sum.words;
            if table.len() < needed {
                return Reading::refused(Refusal::TableShort, needed);
            }
            fill(message, table, sum.rows, sum.words);
            Reading::accepted(needed)
        }
    }
}

// The answer where nothing is written.
impl From<Unwritten> for Writing {
    ghost from_gives = { λ e r. r ≡ unwritten_answer e };

    fn from(why: Unwritten) -> Writing {
        let (told, length) = match why {
            Unwritten::Refused(refusal) => (refusal, 0),
            Unwritten::Short(length) => (Refusal::OutputShort, length),
        };
        Writing {
            number: told.number(),
            length,
        }
    }
}

// Any words to the normal form of their items, or a numbered refusal that leaves the output as lent. Whoever wants only the
// length lends an empty output.
pub fn write(table: &[u64], output: &mut [u8]) -> Writing
    ensures { write_told result output.new ≡ writing table.now output.old }
{
    match writer::write(table, output) {
        Ok(length) => Writing { number: 0, length },
        Err(why) => Writing::from(why),
    }
}

// Any bytes to the normal form of what they say: reads, then writes what was read.
#[tactic(auto, using(crate::proofs::WriteCases::normalise_refused))]
pub fn normalise(message: &[u8], table: &mut [u64], output: &mut [u8]) -> Normalising
    ensures { normalise_told result table.new output.new ≡ normalising message.now table.old output.old }
{
    let r = read(message, table);
    // What `read` answers is the struct that C is given, so its number is tested.
    if r.number != 0 {
        return Normalising {
            number: r.number,
            place: r.place,
            words: r.words,
            length: 0,
            missing: r.missing,
        };
    }
    let w = write(table, output);
    Normalising {
        number: w.number,
        place: r.place,
        words: r.words,
        length: w.length,
        missing: r.missing,
    }
}
