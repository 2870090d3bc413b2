// Mends what can be mended of a batch: each outermost object is judged by itself. The contract of `salvage` is one equation with the
// meaning in specs/Mending.antt: the answer, and every byte and word of the lent output and list afterwards.
#![tactic(auto)]

ghost use Rattle.std.specs.Prelude.{◌≡◌};
ghost use Rattle.format.specs.Refused.{number_of};
ghost use Rattle.salvage.specs.Mending.{salvaging};
ghost use Rattle.salvage.specs.Told.{answer_of, salvage_told};

use crate::walk::{measured, mend};
use format::fault::Refusal;
use format::limits::{MOST_BYTES, too_many};

mod parts;
mod walk;

// Salvaging's answer: 0 or the number of a refusal, the bytes written or needed, and the changes listed or needed.
// Numbers and no Result: C is given this struct.
#[repr(C)]
#[derive(Clone, Copy, Debug, PartialEq, Eq)]
pub struct Salvaging {
    pub number: usize,
    pub length: usize,
    pub entries: usize,
}

// A refusal, with the bytes or the entries that are needed. Alike in shape to other operations', but each fills the struct that C is given.
fn refused(why: Refusal, length: usize, entries: usize) -> Salvaging
    ensures { result ≡ answer_of (number_of why) length entries }
{
    Salvaging {
        number: why.number(),
        length,
        entries,
    }
}

// Any bytes to a message that is accepted, given ample table, and the list of what was changed; or a numbered refusal that leaves both
// as lent. Nothing is written before it is known that all has room.
pub fn salvage(message: &[u8], output: &mut [u8], list: &mut [u64]) -> Salvaging
    ensures { salvage_told result output.new list.new ≡ salvaging message.now output.old list.old }
{
    if message.len() > MOST_BYTES {
        return refused(Refusal::TooLong, 0, 0);
    }
    let m = measured(message);
    if output.len() < m.length {
        return refused(Refusal::OutputShort, m.length, 0);
    }
    if list.len() / 3 < m.entries {
        return refused(Refusal::ListShort, 0, m.entries);
    }
    if too_many(m.rows, m.words) {
        return refused(Refusal::TooMany, 0, 0);
    }
    mend(message, output, list, m);
    Salvaging {
        number: 0,
        length: m.length,
        entries: m.entries,
    }
}
