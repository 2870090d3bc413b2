// Strings: whether contents are characters only, and their codes.
// Depth and bytes go side by side, as in wire::head.
ghost use Rattle.std.specs.Prelude.{◌≡◌, ◌+◌, ◌*◌, ◌/◌, ◌^◌, ◌<◌, ◌≤◌, true, false, [], ◌∷◌, length};
ghost use Rattle.fill.specs.Texts.{spells, OnlyChars, TextFits, TextPut, contents_say, StringRoom, StringLaid, TextRoom, TextTried};
ghost use Rattle.format.specs.Answers.{over};
ghost use Rattle.format.specs.Items.{is_string};
ghost use Rattle.format.specs.Refusals.{byte_limit};

use super::codes::{copy_codes, put_low};
use super::copies::copies_of;
use super::place::{Place, put_row};
use format::Class;
use format::kinds::Kind;
use format::tree::{class_of, is};
use wire::head::{Head, head_of};
use wire::padding::padding_end;
use wire::span::chars_end;

// Whether a string's contents can have such a type-byte: a CHAR's, a PADDING's or a REPEAT's.
pub fn spells(b: u8) -> bool
    ensures { result ≡ spells b }
{
    is(Class::Char7, b) || is(Class::Padding, b) || is(Class::Repeat, b)
}

// Whether a run of objects says only CHARs. It looks into repeats, never into other containers, and ends at the first element
// that is no CHAR. The pattern of a repeat of none adds nothing.
fn only_chars(depth: usize, s: &[u8]) -> bool
    requires { depth + length s.now ≤ byte_limit }
    ensures { OnlyChars depth s.now result }
{
    let mut i: usize = 0;
    // How far it goes on is known when an object has been read, so no `for` goes over the bytes.
    while i < s.len() {
        let b = s[i];
        let behind = i + 1;
        match class_of(b) {
            Class::Char7 => i = chars_end(s, behind),
            Class::Padding => i = padding_end(s, behind),
            Class::Repeat => {
                let rest = &s[behind..];
                let Ok(h) = head_of(depth, b, rest) else {
                    return false;
                };
                let Head::Open(w, inner) = h else {
                    return false;
                };
                if copies_of(w) > 0 && !only_chars(depth + 1, inner.contents(rest)) {
                    return false;
                }
                i = behind + inner.end();
            }
            _ => return false,
        }
    }
    true
}

// The codes of a run that says only CHARs, behind n others; answers how many there are then. A repeat's further copies are
// copied from its first.
fn put_chars(depth: usize, s: &[u8], n: usize, table: &mut [u64]) -> usize
    requires { (depth + length s.now ≤ byte_limit) × TextFits depth s.now n table.old }
    ensures { TextPut depth s.now n table.old table.new result }
{
    let mut i: usize = 0;
    let mut to = n;
    // As above, no `for` goes over the bytes.
    while i < s.len() {
        let b = s[i];
        let behind = i + 1;
        match class_of(b) {
            Class::Char7 => {
                let end = chars_end(s, behind);
                put_low(&s[i..end], to, table);
                to += end - i;
                i = end;
            }
            Class::Padding => i = padding_end(s, behind),
            _ => {
                let rest = &s[behind..];
                let Ok(h) = head_of(depth, b, rest) else {
                    unreachable!();
                };
                let Head::Open(w, inner) = h else {
                    unreachable!();
                };
                let k = copies_of(w);
                if k > 0 {
                    let m = put_chars(depth + 1, inner.contents(rest), to, table) - to;
                    copy_codes(table, to, m, k);
                    to += k * m;
                }
                i = behind + inner.end();
            }
        }
    }
    to
}

// The row of a string of n characters, whose codes stand there from the next data word on; answers how many data words they are.
fn put_string_row(n: usize, place: Place, table: &mut [u64]) -> usize
    requires { (3 ≤ length table.old) × (n + 7 < 2 ^ 64) }
    ensures { (result ≡ (n + 7) / 8) × (table.new ≡ over (9 ∷ n ∷ place.base ∷ []) table.old) }
{
    put_row(table, Kind::String, n as u64, place.base as u64);
    n.div_ceil(8)
}

// A string each of whose bytes c is a character: its row, and its codes from the next data word on; answers how many data words.
pub fn put_bytes(c: &[u8], place: Place, table: &mut [u64]) -> usize
    requires { StringRoom true 0 c.now place.base place.gap table.old }
    ensures { StringLaid true 0 c.now place.base place.gap table.old table.new result }
{
    let at = place.data();
    put_low(c, 0, &mut table[at..]);
    put_string_row(c.len(), place, table)
}

// A string whose contents c are a run that says only CHARs, likewise.
fn put_run(depth: usize, c: &[u8], place: Place, table: &mut [u64]) -> usize
    requires { (depth + length c.now ≤ byte_limit) × StringRoom false depth c.now place.base place.gap table.old }
    ensures { StringLaid false depth c.now place.base place.gap table.old table.new result }
{
    let at = place.data();
    let n = put_chars(depth, c, 0, &mut table[at..]);
    put_string_row(n, place, table)
}

// A run as a string's contents: how many data words are written. Where it says more than CHARs there is none, and the table stays.
pub fn try_string(depth: usize, c: &[u8], place: Place, table: &mut [u64]) -> Option<usize>
    requires { (depth + length c.now ≤ byte_limit) × TextRoom (contents_say false depth c.now) is_string place.base place.gap table.old }
    ensures { TextTried (contents_say false depth c.now) is_string place.base place.gap table.old table.new result }
{
    let words = if chars_end(c, 0) == c.len() {
        put_bytes(c, place, table)
    } else if only_chars(depth, c) {
        put_run(depth, c, place, table)
    } else {
        return None;
    };
    Some(words)
}
