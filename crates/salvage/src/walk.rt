// The parts of a message one after another: once to measure what comes out, and once to write it.
ghost use Rattle.std.specs.Prelude.{◌≡◌, ◌∷◌, [], ◌+◌, ◌*◌, ◌≤◌, length, take};
ghost use Rattle.format.specs.Refusals.{byte_limit};
ghost use Rattle.format.specs.Refused.{number_of};
ghost use Rattle.format.specs.Answers.{over};
ghost use Rattle.format.specs.Lent.{over_at};
ghost use Rattle.salvage.specs.Mending.{mended, changes_in, change_words};
ghost use Rattle.salvage.specs.Words.{HasRoom};
ghost use Rattle.salvage.specs.Told.{Clean, CleanUpto, measure_of};

use super::parts::{Part, alone, part_at};
use format::fault::Refusal;

// Where the first change stands; and what comes out: its bytes, the changes, and the rows and data words of what it says.
#[derive(Clone, Copy)]
pub struct Measure {
    pub first: Option<usize>,
    pub length: usize,
    pub entries: usize,
    pub rows: usize,
    pub words: usize,
}

// Part by part. An object that is replaced is an EMPTY, which is one row.
fn survey(input: &[u8]) -> Measure
    requires { length input.now ≤ byte_limit }
    ensures { (result ≡ measure_of input.now result.first) × CleanUpto input.now result.first (length input.now) }
{
    let mut all = Measure {
        first: None,
        length: 0,
        entries: 0,
        rows: 0,
        words: 0,
    };
    let mut p: usize = 0;
    // How far a turn goes depends on the part that it meets.
    while p < input.len() {
        match part_at(input, p) {
            Part::Kept(n, said) => {
                all.length += n;
                all.rows += said.rows;
                all.words += said.words;
                p += n;
            }
            Part::Replaced(n, _) => {
                all.first = all.first.or(Some(p));
                all.length += 1;
                all.entries += 1;
                all.rows += 1;
                p += n;
            }
            Part::Dropped(_) => {
                all.first = all.first.or(Some(p));
                all.entries += 1;
                p = input.len();
            }
        }
    }
    all
}

// A message that is accepted comes out as it is, and one scan of it is enough.
pub fn measured(input: &[u8]) -> Measure
    requires { length input.now ≤ byte_limit }
    ensures { (result ≡ measure_of input.now result.first) × CleanUpto input.now result.first (length input.now) }
{
    match alone(input) {
        Ok(said) => Measure {
            first: None,
            length: input.len(),
            entries: 0,
            rows: said.rows,
            words: said.words,
        },
        Err(_) => survey(input),
    }
}

// Copies bytes to the place `at` of the output. On 16,384 small INTs salvaging takes 12,628 instructions with this loop, 25,457 with the
// library's `copy_from_slice`.
fn copy_to(bytes: &[u8], output: &mut [u8], at: usize)
    requires { at + length bytes.now ≤ length output.old }
    ensures { output.new ≡ over_at at bytes.now output.old }
{
    for (i, b) in bytes.iter().enumerate() {
        output[at + i] = *b;
    }
}

// Puts a change into a list, as its entry `k`.
fn put_change(list: &mut [u64], k: usize, place: usize, bytes: usize, why: Refusal)
    requires { 3 * k + 3 ≤ length list.old }
    ensures { list.new ≡ over_at (3 * k) (place ∷ bytes ∷ number_of why ∷ []) list.old }
{
    list[3 * k] = place as u64;
    list[3 * k + 1] = bytes as u64;
    list[3 * k + 2] = why.number() as u64;
}

// Writes what comes out and lists the changes, `count` of them, where the bytes before `first` are there already. What stands behind
// the last change is copied, and not looked at again.
fn mend_from(input: &[u8], output: &mut [u8], list: &mut [u64], count: usize, first: usize)
    requires has_room { HasRoom input.now (length output.old) (length list.old) × (count ≡ length (changes_in input.now)) }
    requires clean { Clean input.now first × (take first output.old ≡ take first input.now) }
    ensures output_after { output.new ≡ over (mended input.now) output.old }
    ensures list_after { list.new ≡ over (change_words (changes_in input.now)) list.old }
{
    let mut p = first;
    let mut at = first;
    let mut k: usize = 0;
    // Not every turn tells a change, and what is copied behind the last one starts where the walk stands: no iterator is plainer.
    while k < count {
        match part_at(input, p) {
            Part::Kept(n, _) => {
                let end = p + n;
                copy_to(&input[p..end], output, at);
                at += n;
                p = end;
            }
            Part::Replaced(n, why) => {
                output[at] = 0xfe;
                put_change(list, k, p, n, why);
                at += 1;
                k += 1;
                p += n;
            }
            Part::Dropped(why) => {
                put_change(list, k, p, input.len() - p, why);
                k += 1;
                p = input.len();
            }
        }
    }
    copy_to(&input[p..], output, at);
}

// All of it. What stands before the first change is copied, and not looked at again either.
pub fn mend(input: &[u8], output: &mut [u8], list: &mut [u64], all: Measure)
    requires has_room { HasRoom input.now (length output.old) (length list.old) × (all.entries ≡ length (changes_in input.now)) }
    requires clean { CleanUpto input.now all.first (length input.now) }
    ensures output_after { output.new ≡ over (mended input.now) output.old }
    ensures list_after { list.new ≡ over (change_words (changes_in input.now)) list.old }
{
    let first = all.first.unwrap_or(input.len());
    copy_to(&input[..first], output, 0);
    mend_from(input, output, list, all.entries, first);
}
