// Tells why a message is refused: reading's answer, the containers open around the faulty object, and the evidence. The contract of
// `explain` is one equation with the meaning in specs/Explanations.antt: the answer, and every word of the lent list afterwards.
#![tactic(auto)]

ghost use Rattle.std.specs.Prelude.{◌≡◌, ◌≤◌, length};
ghost use Rattle.format.specs.Answers.{over};
ghost use Rattle.format.specs.Refusals.{byte_limit};
ghost use Rattle.format.specs.Refused.{number_of, meant};
ghost use Rattle.format.specs.Messages.{refused, outcome};
ghost use Rattle.message.specs.Told.{read_answer};
ghost use Rattle.explain.specs.declared.evidence.Evidence.TheVariants.{Nothing};
ghost use Rattle.explain.specs.Explanations.{explaining, in_numbers};
ghost use Rattle.explain.specs.Told.{explain_told, told_of, measured_of, refused_told};

use crate::descent::descend;
use crate::evidence::Evidence;
use crate::site::evidence_at;
use crate::trail::Trail;
use format::fault::{Fault, Refusal};
use format::limits::{MOST_BYTES, too_many};
use message::Reading;
use scan::scan_message;

mod descent;
mod elements;
mod evidence;
mod one_byte;
mod site;
mod stretch;
mod trail;

// Explaining's answer: 0, or 16 where the lent list is too short; the places listed or needed; reading's answer for a table of the words
// lent; and the evidence, by its code and two numbers (Evidence::code). Numbers and no Result: C is given this struct.
#[repr(C)]
#[derive(Clone, Copy, Debug, PartialEq, Eq)]
pub struct Explaining {
    pub number: usize,
    pub entries: usize,
    pub reading: Reading,
    pub evidence: usize,
    pub first: u64,
    pub second: u64,
}

// What is explained, with so many places listed.
fn told(entries: usize, reading: Reading, evidence: Evidence) -> Explaining
    ensures { result ≡ told_of 0 entries reading evidence }
{
    let code = evidence.code();
    Explaining {
        number: 0,
        entries,
        reading,
        evidence: code.evidence,
        first: code.first,
        second: code.second,
    }
}

// The places needed, where the list is too short for them.
fn list_short(entries: usize) -> Explaining
    ensures { result ≡ told_of (number_of Refusal.ListShort) entries (read_answer 0 0) Nothing }
{
    Explaining {
        number: Refusal::ListShort.number(),
        ..told(entries, Reading::accepted(0), Evidence::Nothing)
    }
}

// Places as words of the list.
fn put_places(places: &[usize], list: &mut [u64])
    requires { length places.now ≤ length list.old }
    ensures { list.new ≡ over places.now list.old }
{
    for (i, place) in places.iter().enumerate() {
        list[i] = *place as u64;
    }
}

// A message with a fault.
fn refused_by(m: &[u8], f: Fault, list: &mut [u64]) -> Explaining
    requires { (length m.now ≤ byte_limit) × (outcome m.now ≡ refused (meant f)) }
    ensures { explain_told result list.new ≡ refused_told m.now (meant f) list.old }
{
    let mut trail = Trail::none();
    let object = descend(m, f.place, &mut trail);
    let places = trail.places();
    if list.len() < places.len() {
        return list_short(places.len());
    }
    put_places(places, list);
    told(places.len(), Reading::from(f), evidence_at(object))
}

// A message without one, of so many rows and data words. The evidence tells of either up to 65,536.
fn measured(rows: usize, words: usize, lent: usize) -> Explaining
    ensures { result ≡ measured_of rows words lent }
{
    if too_many(rows, words) {
        let wanted = Evidence::Wanted(rows.min(MOST_BYTES), words.min(MOST_BYTES));
        return told(0, Reading::refused(Refusal::TooMany, 0), wanted);
    }
    let needed = 4 + 3 * rows + words;
    if lent < needed {
        let wanted = Evidence::Wanted(rows, words);
        return told(0, Reading::refused(Refusal::TableShort, needed), wanted);
    }
    told(0, Reading::accepted(needed), Evidence::Nothing)
}

// Any bytes, and how many words are lent to read them into; no table is needed. The list is of the places of the containers open around
// the faulty object, outermost first; where it is too short it is as lent, and the places needed are told and nothing else.
pub fn explain(message: &[u8], words_lent: usize, list: &mut [u64]) -> Explaining
    ensures { explain_told result list.new ≡ in_numbers (explaining message.now words_lent list.old) }
{
    if message.len() > MOST_BYTES {
        return told(0, Reading::refused(Refusal::TooLong, 0), Evidence::Nothing);
    }
    match scan_message(message) {
        Err(f) => refused_by(message, f, list),
        Ok(sum) => measured(sum.rows, sum.words, words_lent),
    }
}
