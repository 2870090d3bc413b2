// The lines that tell what a message says, or why it was refused.
#![tactic(auto)]

ghost use Rattle.std.specs.Prelude.{◌≤◌, ◌≡◌, length};
ghost use Rattle.format.specs.Answers.{over};
ghost use Rattle.format.specs.Tables.{items_of};
ghost use Rattle.listing.specs.Lines.{refused_text, listing};
ghost use Rattle.listing.specs.Listings.{Listable, accepted_of, listed_table, text_limit};

mod output;
mod rows;
mod walk;

use crate::output::Output;
use crate::walk::put_run;
use format::fault::Refusal;
use message::read;

// The bytes of the longest message that is listed.
const MOST_BYTES: usize = 32768;

// The lines of a table's items. The text of no such table is longer than 524,288 bytes.
pub fn accepted(table: &[u64], out: &mut [u8]) -> usize
    requires { Listable (items_of table.now) × (text_limit ≤ length out.old) }
    ensures value { result ≡ length (accepted_of (items_of table.now)) }
    ensures out_after { out.new ≡ over (accepted_of (items_of table.now)) out.old }
{
    let mut out = Output::new(out);
    out.text(b"accepted ");
    out.decimal(table[1]);
    out.text(b" items ");
    out.decimal(table[0]);
    out.text(b" rows\n");
    put_run(table, 0, table[0] as usize, 0, &mut out);
    out.length()
}

// The line of a refusal.
pub fn refused(number: usize, place: usize, out: &mut [u8]) -> usize
    requires { 64 ≤ length out.old }
    ensures value { result ≡ length (refused_text number place) }
    ensures out_after { out.new ≡ over (refused_text number place) out.old }
{
    let mut out = Output::new(out);
    out.text(b"refused ");
    out.decimal(number as u64);
    out.text(b" at ");
    out.decimal(place as u64);
    out.byte(b'\n');
    out.length()
}

// What a message says, or why it is refused, read into a table of 8,000 words. A longer message than `MOST_BYTES` is too long.
pub fn list(message: &[u8], table: &mut [u64], out: &mut [u8]) -> usize
    requires { (length table.old ≡ 8000) × (text_limit ≤ length out.old) }
    ensures value { result ≡ length (listing message.now) }
    ensures out_after { out.new ≡ over (listing message.now) out.old }
    ensures table_after { table.new ≡ listed_table message.now table.old }
{
    if message.len() > MOST_BYTES {
        return refused(Refusal::TooLong.number(), 0, out);
    }
    let answer = read(message, table);
    // What `read` answers is the struct that C is given, so its number is tested.
    if answer.number != 0 {
        return refused(answer.number, answer.place, out);
    }
    accepted(table, out)
}
