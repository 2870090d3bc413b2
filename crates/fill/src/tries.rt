// Containers tried as strings, before their elements are laid out.
// Depth and bytes go side by side, as in wire::head.
ghost use Rattle.std.specs.Prelude.{◌≡◌, ◌+◌, ◌<◌, ◌≤◌, true, false, length};
ghost use Rattle.wire.specs.Heads.{wrap_by};
ghost use Rattle.wire.specs.Ranges.{Between};
ghost use Rattle.fill.specs.Containers.{is_struc, text_in};
ghost use Rattle.fill.specs.Contents.{inside_of, TextLike};
ghost use Rattle.fill.specs.Texts.{contents_say, TextRoom, TextTried};
ghost use Rattle.format.specs.Refusals.{byte_limit};

use super::place::Place;
use super::text::{put_bytes, spells, try_string};
use format::Class;
use format::tree::is;
use wire::head::Wrap;
use wire::short::wrap_by;
use wire::span::all_low;

// Whether a container can be a string: it is a STRUC or USTRUC.
fn is_group(w: Wrap) -> bool
    ensures { result ≡ is_struc w }
{
    matches!(w, Wrap::Struc | Wrap::Ustruc)
}

// A container with the contents c as a string: its data words. Where it is none, the table stays.
pub fn string_in(w: Wrap, depth: usize, c: &[u8], place: Place, table: &mut [u64]) -> Option<usize>
    requires { (depth + length c.now ≤ byte_limit) × TextRoom (contents_say false depth c.now) (text_in w) place.base place.gap table.old }
    ensures { TextTried (contents_say false depth c.now) (text_in w) place.base place.gap table.old table.new result }
{
    if is_group(w) {
        return try_string(depth, c, place, table);
    }
    None
}

// Whether a run can be a string's contents, by its first byte: most begin with what is no CHAR.
fn text_like(c: &[u8]) -> bool
    ensures { TextLike c.now result }
{
    match c.first() {
        Some(b) => spells(*b),
        None => true,
    }
}

// Whether each of a few bytes is a character. The first is asked by itself, as most containers begin with what is no CHAR.
fn all_chars(c: &[u8]) -> bool
    ensures { result ≡ true → Between 0 0x7f 0 (length c.now) c.now }
{
    let [b, ..] = *c else {
        return true;
    };
    is(Class::Char7, b) && all_low(c)
}

// An object whose size is one byte as a string, by its type-byte b and its contents c: its data words. Where it is none, the table
// stays. Most strings are few bytes, each of them a character; those are told first.
pub fn short_string(depth: usize, b: u8, c: &[u8], place: Place, table: &mut [u64]) -> Option<usize>
    requires { (depth + length c.now < byte_limit) × TextRoom (inside_of depth b c.now) (text_in (wrap_by b)) place.base place.gap table.old }
    ensures { TextTried (inside_of depth b c.now) (text_in (wrap_by b)) place.base place.gap table.old table.new result }
{
    if !is_group(wrap_by(b)) {
        return None;
    }
    if is(Class::String, b) || all_chars(c) {
        return Some(put_bytes(c, place, table));
    }
    if text_like(c) {
        return try_string(depth + 1, c, place, table);
    }
    None
}
