// The bytes of the normal form of the items in a run of rows, where they are known to fit. Each row is visited once.
ghost use Rattle.std.specs.Prelude.{◌≡◌, ◌∷◌, ◌+◌, ◌-◌, ◌*◌, ◌≤◌, ◌<◌, length};
ghost use Rattle.format.specs.Normal.{normal, with_size};
ghost use Rattle.format.specs.Answers.{over};
ghost use Rattle.table.specs.Rows.{rows_of, items_at, TextAt, text_at};
ghost use Rattle.writer.specs.Measures.{RunWritable, ContainerWritable, head_byte, moved};
ghost use Rattle.writer.specs.Forms.{codes_from, Alike};

use crate::leaves::{put_bytes, put_head, put_leaf};
use crate::numbers::size_length;
use crate::single::{CHARS, INTS, OneByte};
use format::kinds::{CHAR, EDT, INT, STRING, STRUC};
use table::header::Framed;
use table::rows::Rows;

// Moves the `n` bytes from `from` on further on by `by` bytes.
#[inline(never)]
#[tactic(auto, using(crate::proofs::Moving::shifting))]
fn shift(out: &mut [u8], from: usize, n: usize, by: usize)
    requires { from + by + n ≤ length out.old }
    ensures { out.new ≡ moved from n by out.old }
{
    if by > 0 {
        out.copy_within(from..from + n, from + by);
    }
}

// The string whose row is `p`: a head, and its codes from their data words. The answer here and below is how many bytes are written.
#[tactic(auto, using(crate::proofs::ContainerLaws::as_text))]
fn write_string(table: Framed<'_>, p: usize, out: &mut [u8]) -> usize
    requires text { TextAt table.words.now p × (p < rows_of table.words.now) }
    requires room { 1 + length (with_size (normal (text_at table.words.now p))) ≤ length out.old }
    ensures value { result ≡ 1 + length (with_size (normal (text_at table.entry.words.now p))) }
    ensures out_after { out.new ≡ over (0xc5 ∷ with_size (normal (text_at table.entry.words.now p))) out.old }
{
    let row = table.row(p);
    let size = row.a as usize;
    let used = put_head(out, 0xc5, size);
    put_bytes(table, row.b as usize, 8 * size, &mut out[used..]);
    used + size
}

// The type-byte of a container of this kind that is no string.
#[tactic(auto, unfolding(crate::specs::Measures::head_byte, format::specs::Choice::if_eq))]
fn head_byte(kind: u64) -> u8
    ensures { result ≡ head_byte kind }
{
    if kind == EDT { 0xc3 } else { 0xc2 }
}

// Those of these rows, from the first on, that are such items. The answer is how many they are, and each is a byte.
#[tactic(auto, using(crate::proofs::StretchLaws::stringing))]
fn put_singles(rows: Rows<'_>, one: OneByte, out: &mut [u8]) -> usize
    requires { rows.to - rows.from ≤ length out.old }
    ensures alike { Alike rows.entry.words.now one.kind one.bound rows.entry.from rows.entry.to (rows.entry.from + result) }
    ensures out_after { out.new ≡ over (codes_from rows.entry.words.now one.low rows.entry.from result) out.old }
{
    for q in rows.from..rows.to {
        let row = rows.row(q);
        if row.kind != one.kind || row.b >= one.bound {
            return q - rows.from;
        }
        out[q - rows.from] = (one.low + row.b) as u8;
    }
    rows.to - rows.from
}

// The elements are written first, behind room for the fewest size bytes that so many rows can need, and moved on if their
// size takes more.
#[cycle(write_container_write_run)]
fn write_container(
    table: Framed<'_>,
    kind: u64,
    from: usize,
    to: usize,
    depth: usize,
    out: &mut [u8],
) -> usize
    requires { ContainerWritable table.words.now from to depth (length out.old) }
    ensures value { result ≡ 1 + length (with_size (normal (items_at table.entry.words.now from to))) }
    ensures out_after { out.new ≡ over (head_byte kind ∷ with_size (normal (items_at table.entry.words.now from to))) out.old }
{
    let least = size_length(to - from);
    let start = 1 + least;
    let size = write_run(table, from, to, depth - 1, &mut out[start..]);
    let used = size_length(size);
    shift(out, start, size, used - least);
    put_head(out, head_byte(kind), size) + size
}

#[cycle(write_container_write_run)]
pub fn write_run(table: Framed<'_>, from: usize, to: usize, depth: usize, out: &mut [u8]) -> usize
    requires { RunWritable table.words.now from to depth (length out.old) }
    ensures value { result ≡ length (normal (items_at table.entry.words.now from to)) }
    ensures out_after { out.new ≡ over (normal (items_at table.entry.words.now from to)) out.old }
{
    let mut p = from;
    let mut n: usize = 0;
    // The step is an item's rows, or those of many, which no range counts.
    while p < to {
        let row = table.row(p);
        if row.kind == CHAR {
            let count = put_singles(table.rows(p, to), CHARS, &mut out[n..]);
            n += count;
            p += count;
        } else if row.kind == INT && row.b < INTS.bound {
            let count = put_singles(table.rows(p, to), INTS, &mut out[n..]);
            n += count;
            p += count;
        } else if row.kind < STRUC {
            n += put_leaf(table, p, &mut out[n..]);
            p += 1;
        } else if row.kind == STRING {
            n += write_string(table, p, &mut out[n..]);
            p += 1;
        } else {
            let next = p + 1 + row.b as usize;
            n += write_container(table, row.kind, p + 1, next, depth, &mut out[n..]);
            p = next;
        }
    }
    n
}
