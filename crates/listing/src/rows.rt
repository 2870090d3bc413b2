// The line of one row of a table, in parts.
ghost use Rattle.std.specs.Prelude.{◌+◌, ◌-◌, ◌*◌, ◌/◌, ◌%◌, ◌^◌, ◌<◌, ◌≤◌, ◌≡◌, length, drop};
ghost use Rattle.format.specs.Kinds.{word_of};
ghost use Rattle.format.specs.Tables.{codes};
ghost use Rattle.table.specs.Rows.{kind_at, a_at, b_at, rows_of, leaf_at, text_at};
ghost use Rattle.listing.specs.Lines.{bit_text, codes_column, text_value};
ghost use Rattle.listing.specs.Puts.{Fits, Put};
ghost use Rattle.listing.specs.RowTexts.{kind_word, leaf_bits, leaf_value, value_at, row_text, InOrder};

use crate::output::Output;
use format::kinds::Kind;
use table::rows::row_at;

// A row of a table, by its number.
// InOrder is no ghost field: it holds numbers (the `before` of LeafAt and TextAt), and antt takes only a fact with at most one proof.
#[derive(Clone, Copy)]
pub struct Row<'a> {
    pub table: &'a [u64],
    pub p: usize,
}

impl Row<'_> {
    pub fn kind(&self) -> Kind
        requires { InOrder self.now }
        ensures { word_of result ≡ kind_at self.now.table.now self.now.p }
    {
        Kind::try_from(row_at(self.table, self.p).kind).unwrap()
    }

    pub fn a(&self) -> u64
        requires { InOrder self.now }
        ensures { result ≡ a_at self.now.table.now self.now.p }
    {
        row_at(self.table, self.p).a
    }

    pub fn b(&self) -> u64
        requires { InOrder self.now }
        ensures { result ≡ b_at self.now.table.now self.now.p }
    {
        row_at(self.table, self.p).b
    }

    // The data words of a BITS or a string, and what stands behind them.
    fn data(&self) -> &[u64]
        requires in_order { InOrder self.now }
        requires within { 3 * rows_of self.now.table.now + 4 + b_at self.now.table.now self.now.p ≤ length self.now.table.now }
        ensures { result.now ≡ drop (3 * rows_of self.now.table.now + 4 + b_at self.now.table.now self.now.p) self.now.table.now }
    {
        let first = 3 * (self.table[0] as usize) + 4 + (self.b() as usize);
        &self.table[first..]
    }
}

// A kind between spaces; none behind EMPTY.
#[tactic(auto, unfolding(crate::specs::RowTexts::kind_word, format::specs::Choice::if_eq, format::specs::Choice::pick))]
fn kind_text(kind: Kind) -> &'static [u8]
    ensures { result.now ≡ kind_word (word_of kind) }
{
    match kind {
        Kind::Int => b" INT ",
        Kind::Bits => b" BITS ",
        Kind::Char => b" CHAR ",
        Kind::Bool => b" BOOL ",
        Kind::Empty => b" EMPTY",
        Kind::Xtra => b" XTRA ",
        Kind::Struc => b" STRUC ",
        Kind::Edt => b" EDT ",
        Kind::String => b" STRING ",
    }
}

// The bits of a BITS, the high bit of each data word first.
fn put_stream(row: &Row, out: &mut Output)
    requires bits { InOrder row.now × (kind_at row.now.table.now row.now.p ≡ 2) }
    requires room { Fits (bit_text (leaf_bits (leaf_at row.now.table.now row.now.p))) out.old }
    ensures { Put (bit_text (leaf_bits (leaf_at row.now.table.now row.now.p))) out.old out.new }
{
    out.bits(row.data(), row.a() as usize);
}

// The number of bits, and if there are any, the bits.
fn put_bits(row: &Row, out: &mut Output)
    requires bits { InOrder row.now × (kind_at row.now.table.now row.now.p ≡ 2) }
    requires room { Fits (leaf_value (leaf_at row.now.table.now row.now.p)) out.old }
    ensures { Put (leaf_value (leaf_at row.now.table.now row.now.p)) out.old out.new }
{
    let bits = row.a();
    out.decimal(bits);
    if bits > 0 {
        out.byte(b' ');
        put_stream(row, out);
    }
}

// The code `j` of a word, the high byte being the first.
fn code_of(word: u64, j: usize) -> u64
    requires { j < 8 }
    ensures { result ≡ word / 2 ^ (56 - 8 * j) % 256 }
{
    (word >> (56 - 8 * j)) % 256
}

// The codes of a string, each behind a space.
fn put_codes(row: &Row, out: &mut Output)
    requires string { InOrder row.now × (kind_at row.now.table.now row.now.p ≡ 9) }
    requires room { Fits (codes_column (codes (text_at row.now.table.now row.now.p))) out.old }
    ensures { Put (codes_column (codes (text_at row.now.table.now row.now.p))) out.old out.new }
{
    let words = row.data();
    for i in 0..row.a() as usize {
        out.byte(b' ');
        out.decimal(code_of(words[i / 8], i % 8));
    }
}

// The number of characters, and their codes.
fn put_string(row: &Row, out: &mut Output)
    requires string { InOrder row.now × (kind_at row.now.table.now row.now.p ≡ 9) }
    requires room { Fits (text_value (codes (text_at row.now.table.now row.now.p))) out.old }
    ensures { Put (text_value (codes (text_at row.now.table.now row.now.p))) out.old out.new }
{
    out.decimal(row.a());
    put_codes(row, out);
}

// What stands behind the kind: nothing for an EMPTY, the number of elements for a STRUC or an EDT.
fn put_value(row: &Row, kind: Kind, out: &mut Output)
    requires in_order { InOrder row.now × (word_of kind ≡ kind_at row.now.table.now row.now.p) }
    requires room { Fits (value_at row.now.table.now row.now.p) out.old }
    ensures { Put (value_at row.now.table.now row.now.p) out.old out.new }
{
    match kind {
        Kind::Int => out.signed(row.b()),
        Kind::Bits => put_bits(row, out),
        Kind::Char | Kind::Bool | Kind::Xtra => out.decimal(row.b()),
        Kind::Empty => {}
        Kind::Struc | Kind::Edt => out.decimal(row.a()),
        Kind::String => put_string(row, out),
    }
}

pub fn put_row(row: &Row, depth: usize, out: &mut Output)
    requires in_order { InOrder row.now }
    requires room { Fits (row_text depth row.now.table.now row.now.p) out.old }
    ensures { Put (row_text depth row.now.table.now row.now.p) out.old out.new }
{
    let kind = row.kind();
    out.decimal(depth as u64);
    out.text(kind_text(kind));
    put_value(row, kind, out);
    out.byte(b'\n');
}
