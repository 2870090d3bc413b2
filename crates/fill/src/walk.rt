// The walk of a message: an object, a short container and a run of objects call each other, and the bytes left fall. The table
// that each is lent begins with the place of its first row; the data start `gap` words on, and `base` words of them come before.
// `depth` and the bytes go side by side: `head_of` and `short_size` ask for both apart, with other bytes than the run's own.
ghost use Rattle.std.specs.Prelude.{◌≡◌, ◌+◌, ◌*◌, ◌<◌, ◌≤◌, [], ◌∷◌, length};
ghost use Rattle.format.specs.Kinds.{word_of};
ghost use Rattle.format.specs.Answers.{over};
ghost use Rattle.fill.specs.Containers.{own_words, kind_of, closed_group, Closable, closed_table, closed_sums};
ghost use Rattle.fill.specs.Contents.{ShortFits, ShortFilled};
ghost use Rattle.fill.specs.Walks.{RunFits, ObjectFits, RunFilled, ObjectFilled};
ghost use Rattle.format.specs.Refusals.{byte_limit};

use super::copies::{copies_of, copy_rows, copy_words};
use super::place::{Filled, Place, Placed, put_row};
use super::plain::{put_data, put_plain, put_sbits};
use super::stretch::put_stretch;
use super::text::put_bytes;
use super::tries::{short_string, string_in};
use format::kinds::Kind;
use format::tree::is_non_atomic;
use wire::bits::sbits_of;
use wire::head::{Head, Wrap, head_of};
use wire::short::{short_size, wrap_by};

// The words of a container's own row; a REPEAT has none.
fn own_words(w: Wrap) -> usize
    ensures { result ≡ own_words w }
{
    match w {
        Wrap::Repeat(_) => 0,
        _ => 3,
    }
}

// The kind of the row of a container that is no string; a REPEAT has none.
fn kind_of(w: Wrap) -> Kind
    ensures { word_of result ≡ kind_of w }
{
    match w {
        Wrap::Edt => Kind::Edt,
        _ => Kind::Struc,
    }
}

// The row of a container whose elements are written behind it.
fn put_group(kind: Kind, f: Filled, table: &mut [u64]) -> Filled
    requires { 3 * (f.rows + 1) ≤ length table.old }
    ensures { (result ≡ closed_group f) × (table.new ≡ over (word_of kind ∷ f.count ∷ f.rows ∷ []) table.old) }
{
    put_row(table, kind, f.count as u64, f.rows as u64);
    f.grouped()
}

// What a container makes of its elements' rows, which stand behind the place of its own, and of their data words, which stand
// from `at` on: its row, or the repeat's further copies.
fn close(w: Wrap, f: Filled, at: usize, table: &mut [u64]) -> Filled
    requires { Closable w f at (length table.old) }
    ensures { (result ≡ closed_sums w f) × (table.new ≡ closed_table w f at table.old) }
{
    match w {
        Wrap::Repeat(k) => {
            copy_rows(table, f.rows, f.words, k);
            copy_words(&mut table[at..], f.words, k);
            f.times(k)
        }
        _ => put_group(kind_of(w), f, table),
    }
}

// The object whose type-byte is b; s are the bytes behind it, up to the end of the enclosing object. Each container around it
// has a byte before s, so that `depth` and the bytes left stay within a message's length. As in the scan, an
// SBITSTR is tried first.
#[cycle(fill_object_fill_run_fill_short)]
fn fill_object(depth: usize, b: u8, s: &[u8], place: Place, table: &mut [u64]) -> Placed
    requires { (depth + length s.now < byte_limit) × ObjectFits depth b s.now place.base place.gap table.old }
    ensures { ObjectFilled depth b s.now place.base place.gap table.old table.new result }
{
    if let Some(n) = sbits_of(b, s) {
        return put_sbits(b, s, n, place, table);
    }
    let Ok(h) = head_of(depth, b, s) else {
        unreachable!();
    };
    match h {
        Head::Open(w, inner) => {
            let e = inner.end();
            // The rows of a pattern that stands there no time may be more than the table holds.
            if copies_of(w) == 0 {
                return Filled::default().past(e);
            }
            let c = inner.contents(s);
            if let Some(words) = string_in(w, depth + 1, c, place, table) {
                return Filled::item(words).past(e);
            }
            // The elements' rows go straight into the part of the table behind the container's own row.
            let own = own_words(w);
            let f = fill_run(depth + 1, c, place.inside(own), &mut table[own..]);
            close(w, f, place.data(), table).past(e)
        }
        Head::Text(inner) => {
            let words = put_bytes(inner.contents(s), place, table);
            Filled::item(words).past(inner.end())
        }
        _ => {
            put_data(h, s, &mut table[place.data()..]);
            put_plain(h, s, place.base, table)
        }
    }
}

// A container or a string whose size is one byte; c are its contents.
#[cycle(fill_object_fill_run_fill_short)]
fn fill_short(depth: usize, b: u8, c: &[u8], place: Place, table: &mut [u64]) -> Filled
    requires { (depth + length c.now < byte_limit) × ShortFits depth b c.now place.base place.gap table.old }
    ensures { ShortFilled depth b c.now place.base place.gap table.old table.new result }
{
    if let Some(words) = short_string(depth, b, c, place, table) {
        return Filled::item(words);
    }
    let f = fill_run(depth + 1, c, place.inside(3), &mut table[3..]);
    put_group(kind_of(wrap_by(b)), f, table)
}

// A run of objects. Of the non-atomic objects those with a size of one byte are tried first, of the others stretches; what is
// neither goes by its head.
#[cycle(fill_object_fill_run_fill_short)]
pub fn fill_run(depth: usize, s: &[u8], place: Place, table: &mut [u64]) -> Filled
    requires { (depth + length s.now ≤ byte_limit) × RunFits depth s.now place.base place.gap table.old }
    ensures { RunFilled depth s.now place.base place.gap table.old table.new result }
{
    let mut i: usize = 0;
    let mut done = Filled::default();
    // How far it goes on is known when an object has been read, so no `for` goes over the bytes.
    while i < s.len() {
        let b = s[i];
        let rest = &s[i + 1..];
        let used = 3 * done.rows;
        if is_non_atomic(b) {
            if let Some(n) = short_size(depth, b, rest) {
                let behind = place.behind(done);
                done += fill_short(depth, b, &rest[1..1 + n], behind, &mut table[used..]);
                i += 2 + n;
                continue;
            }
        } else {
            let l = put_stretch(s, i, &mut table[..place.gap], used);
            if l.upto > i {
                i = l.upto;
                done += Filled::small(l.rows);
                continue;
            }
        }
        let behind = place.behind(done);
        let o = fill_object(depth, b, rest, behind, &mut table[used..]);
        done += o.filled;
        i += 1 + o.past;
    }
    done
}
