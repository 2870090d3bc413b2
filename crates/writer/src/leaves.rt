// The normal form of an item without elements, from its row: its length, and its bytes.
ghost use Rattle.std.specs.Prelude.{◌≡◌, ◌+◌, ◌*◌, ◌/◌, ◌≤◌, ◌<◌, ◌∷◌, length, slice_index};
ghost use Rattle.format.specs.Normal.{normal_leaf, normal_size};
ghost use Rattle.format.specs.Answers.{over};
ghost use Rattle.table.specs.Rows.{rows_of, leaf_at, LeafAt, Kept, kept_bytes};
ghost use Rattle.writer.specs.Forms.{bits_length, bits_form, marker, numbered, plain_byte};

use crate::bits::Bits;
use crate::numbers::{
    int_length, put_int, put_low, put_size, put_tagged, put_word, size_length, width,
};
use format::kinds::{BITS, BOOL, CHAR, EMPTY, INT};
use table::header::Framed;

// How many bytes a BITS of `n` bits takes.
#[tactic(auto, using(crate::proofs::LeafForms::bits_lengths))]
pub fn bits_length(n: usize) -> usize
    requires { n ≤ 1048576 }
    ensures { result ≡ bits_length n }
{
    if n < 64 {
        return 2 + n / 8;
    }
    let size = int_length(n as u64) + n.div_ceil(8);
    1 + size_length(size) + size
}

// Fewer than 64 bits, with a 1 before them, as a number.
#[tactic(auto, using(crate::proofs::LeafForms::marking))]
fn marked(bits: Bits<'_>) -> u64
    requires { bits.count < 64 }
    ensures { result ≡ marker bits.entry.table.words.now bits.entry.first bits.entry.count }
{
    if bits.count == 0 {
        1
    } else {
        (1 << bits.count) + (bits.words()[0] >> (64 - bits.count))
    }
}

// A BITS of fewer than 64 bits. The answer here and below is how many bytes it takes.
#[tactic(auto, using(crate::proofs::LeafForms::as_sbits))]
fn put_sbits(bits: Bits<'_>, out: &mut [u8]) -> usize
    requires few { bits.count < 64 }
    requires room { length (bits_form bits.table.words.now bits.first bits.count) ≤ length out.old }
    ensures value { result ≡ length (bits_form bits.entry.table.words.now bits.entry.first bits.entry.count) }
    ensures out_after { out.new ≡ over (bits_form bits.entry.table.words.now bits.entry.first bits.entry.count) out.old }
{
    let v = marked(bits);
    // One byte, as of most, is written without asking for the highest bit.
    if v < 256 {
        return put_tagged(out, 0xf1, 1, v);
    }
    let k = width(v);
    put_tagged(out, (0xf0 + k % 8) as u8, k, v)
}

// So many bits from the data word `first` on, left-adjusted in bytes: the whole words among them, and then the first bytes of a last
// word. As one struct they would be handed over in memory, ten instructions more for each short string.
#[inline(never)]
pub fn put_bytes(table: Framed<'_>, first: usize, count: usize, out: &mut [u8])
    requires { Kept table.words.now first count × ((count + 7) / 8 ≤ length out.old) }
    ensures { out.new ≡ over (kept_bytes table.entry.words.now first count) out.old }
{
    let bytes = (count + 7) / 8;
    let words = Bits {
        table,
        first,
        count,
    }
    .words();
    let whole = bytes / 8;
    // One word, as in short strings, is written without setting up the loop, which takes several at a time.
    if whole == 1 {
        put_word(out, words[0]);
    } else {
        for (i, word) in words[..whole].iter().enumerate() {
            put_word(&mut out[8 * i..], *word);
        }
    }
    let rest = bytes % 8;
    if rest > 0 {
        put_low(&mut out[8 * whole..], rest, words[whole] >> (64 - 8 * rest));
    }
}

// The number of bits, and then the bits.
#[tactic(auto, using(crate::proofs::LeafForms::as_lbits))]
fn put_numbered(bits: Bits<'_>, out: &mut [u8])
    requires { length (numbered bits.table.words.now bits.first bits.count) ≤ length out.old }
    ensures { out.new ≡ over (numbered bits.entry.table.words.now bits.entry.first bits.entry.count) out.old }
{
    let used = put_int(out, bits.count as u64);
    put_bytes(bits.table, bits.first, bits.count, &mut out[used..]);
}

// A type-byte and the size of what follows.
#[tactic(auto, using(crate::proofs::NumberLaws::byte_then))]
pub fn put_head(out: &mut [u8], byte: u8, size: usize) -> usize
    requires { length (normal_size size) < length out.old }
    ensures value { result ≡ 1 + length (normal_size size) }
    ensures out_after { out.new ≡ over (byte ∷ normal_size size) out.old }
{
    out[0] = byte;
    1 + put_size(&mut out[1..], size)
}

// A BITS of 64 bits or more.
#[tactic(auto, using(crate::proofs::LeafForms::as_lbits))]
fn put_lbits(bits: Bits<'_>, out: &mut [u8]) -> usize
    requires many { 64 ≤ bits.count }
    requires room { length (bits_form bits.table.words.now bits.first bits.count) ≤ length out.old }
    ensures value { result ≡ length (bits_form bits.entry.table.words.now bits.entry.first bits.entry.count) }
    ensures out_after { out.new ≡ over (bits_form bits.entry.table.words.now bits.entry.first bits.entry.count) out.old }
{
    let size = int_length(bits.count as u64) + bits.count.div_ceil(8);
    let used = put_head(out, 0xc1, size);
    put_numbered(bits, &mut out[used..]);
    used + size
}

fn put_bits(bits: Bits<'_>, out: &mut [u8]) -> usize
    requires { length (bits_form bits.table.words.now bits.first bits.count) ≤ length out.old }
    ensures value { result ≡ length (bits_form bits.entry.table.words.now bits.entry.first bits.entry.count) }
    ensures out_after { out.new ≡ over (bits_form bits.entry.table.words.now bits.entry.first bits.entry.count) out.old }
{
    if bits.count < 64 {
        put_sbits(bits, out)
    } else {
        put_lbits(bits, out)
    }
}

// The type-byte of an item that has no other bytes.
#[tactic(auto, unfolding(crate::specs::Forms::plain_byte, format::specs::Choice::if_eq))]
fn plain_byte(kind: u64, b: u64) -> u8
    requires { (kind ≡ 3 → b < 128) × ((kind ≡ 3 → ⊥) → b < 4) }
    ensures { result ≡ plain_byte kind b }
{
    match kind {
        CHAR => b as u8,
        BOOL => (0xfc + b) as u8,
        EMPTY => 0xfe,
        _ => (0xf8 + b) as u8,
    }
}

// The item of the row `p`.
#[tactic(auto, using(crate::proofs::LeafForms::as_leaf))]
pub fn put_leaf(table: Framed<'_>, p: usize, out: &mut [u8]) -> usize
    requires leaf { LeafAt table.words.now p × (p < rows_of table.words.now) }
    requires room { length (normal_leaf (leaf_at table.words.now p)) ≤ length out.old }
    ensures value { result ≡ length (normal_leaf (leaf_at table.entry.words.now p)) }
    ensures out_after { out.new ≡ over (normal_leaf (leaf_at table.entry.words.now p)) out.old }
{
    let row = table.row(p);
    match row.kind {
        INT => put_int(out, row.b),
        BITS => put_bits(
            Bits {
                table,
                first: row.b as usize,
                count: row.a as usize,
            },
            out,
        ),
        _ => {
            out[0] = plain_byte(row.kind, row.b);
            1
        }
    }
}
