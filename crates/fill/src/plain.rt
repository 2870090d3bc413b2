// Objects that are no containers and no strings: their row, and their data words.
ghost use Rattle.std.specs.Prelude.{◌≡◌, ◌+◌, ◌≤◌, length};
ghost use Rattle.format.specs.Answers.{over};
ghost use Rattle.format.specs.Bits.{words_for};
ghost use Rattle.format.specs.Objects.{following};
ghost use Rattle.fill.specs.Plain.{Apt, plain_rows, plain_words, plain_placed, sbits_head, PlainPut};
ghost use Rattle.format.specs.Refusals.{byte_limit};

use super::bits::put_bits;
use super::place::{Filled, Place, Placed, put_row};
use format::kinds::Kind;
use wire::bits::sbits_word;
use wire::head::Head;
use wire::integer::following_of;

// The row of an object by its head; none where there is no item or its contents are still to be read.
pub fn put_plain(h: Head, s: &[u8], base: usize, table: &mut [u64]) -> Placed
    requires { (length s.now ≤ byte_limit) × Apt s.now h × (length (plain_rows s.now base h) ≤ length table.old) }
    ensures { (result ≡ plain_placed h) × (table.new ≡ over (plain_rows s.now base h) table.old) }
{
    match h {
        Head::Row(kind, v, u) => {
            put_row(table, kind, 0, v);
            Filled::item(0).past(u)
        }
        Head::Sbits(n, _, u) | Head::Lbits(_, n, u) => {
            put_row(table, Kind::Bits, n as u64, base as u64);
            Filled::item((n + 63) / 64).past(u)
        }
        _ => Filled::default().past(0),
    }
}

// The data words of an object by its head.
pub fn put_data(h: Head, s: &[u8], table: &mut [u64])
    requires { (length s.now ≤ byte_limit) × Apt s.now h × (length (plain_words s.now h) ≤ length table.old) }
    ensures { table.new ≡ over (plain_words s.now h) table.old }
{
    match h {
        Head::Sbits(n, w, _) => {
            if n > 0 {
                table[0] = w;
            }
        }
        Head::Lbits(a, n, u) => put_bits(&s[a..u], n, table),
        _ => {}
    }
}

// The row and the data word of an SBITSTR of n bits; b is its type-byte, and s are the bytes behind it.
pub fn put_sbits(b: u8, s: &[u8], n: usize, place: Place, table: &mut [u64]) -> Placed
    requires { (n ≤ 63) × (following b ≤ length s.now) × (3 ≤ place.gap) × (place.gap + (place.base + words_for n) ≤ length table.old) }
    ensures { PlainPut s.now (sbits_head b s.now n) place.base place.gap table.old table.new result }
{
    put_row(table, Kind::Bits, n as u64, place.base as u64);
    if n == 0 {
        return Filled::item(0).past(following_of(b));
    }
    table[place.data()] = sbits_word(b, s, n);
    Filled::item(1).past(following_of(b))
}
