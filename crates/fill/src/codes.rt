// Codes in the data, eight to a word: some more, from bytes, and those that are there again.
ghost use Rattle.std.specs.Prelude.{◌≡◌, ◌+◌, ◌*◌, ◌<◌, ◌≤◌, length, take, drop};
ghost use Rattle.fill.specs.Texts.{lows, word_of, Spelt, PutSome, CodeIs, EightAre, Period, SpeltFrom, SpeltAgain};
ghost use Rattle.format.specs.Answers.{over};
ghost use Rattle.fill.specs.Copies.{cycled};

use super::copies::{copy_plain, copy_words};
use wire::integer::{number, word_at};

// k codes, left-adjusted in a word, behind the n codes at the front of the table: in one word, or in two.
fn put_some(table: &mut [u64], n: usize, word: u64, k: usize)
    requires { (0 < k) × (k ≤ 8) × (n + k ≤ 8 * length table.old) }
    ensures { PutSome n k word table.old table.new }
{
    let j = n / 8;
    let r = 8 * (n % 8);
    if r == 0 {
        table[j] = word;
        return;
    }
    table[j] = table[j].wrapping_add(word >> r);
    if r + 8 * k > 64 {
        table[j + 1] = word << (64 - r);
    }
}

// The n-th of the codes at the front of the table.
fn code_at(table: &[u64], n: usize) -> u64
    requires { n < 8 * length table.now }
    ensures { (result < 128) × CodeIs n table.now result }
{
    let j = n / 8;
    (table[j] >> (56 - 8 * (n % 8))) % 128
}

// Eight of the codes at the front of the table, from the n-th on, as a word.
fn eight_at(table: &[u64], n: usize) -> u64
    requires { n + 8 ≤ 8 * length table.now }
    ensures { EightAre n table.now result }
{
    let j = n / 8;
    let r = 8 * (n % 8);
    if r == 0 {
        return table[j];
    }
    (table[j] << r).wrapping_add(table[j + 1] >> (64 - r))
}

// Eight bytes from i on as a word, each without its high bit.
fn low_eight(c: &[u8], i: usize) -> u64
    requires { i + 8 ≤ length c.now }
    ensures { result ≡ word_of (lows (take 8 (drop i c.now))) }
{
    word_at(c, i) & 0x7f7f7f7f7f7f7f7f
}

// A few bytes, each without its high bit, left-adjusted in a word.
fn low_some(c: &[u8]) -> u64
    requires { (0 < length c.now) × (length c.now ≤ 8) }
    ensures { result ≡ word_of (lows c.now) }
{
    let k = c.len();
    (number(c, k) & 0x7f7f7f7f7f7f7f7f) << (64 - 8 * k)
}

// The low seven bits of each byte, behind n codes: eight at a time, and the rest.
pub fn put_low(c: &[u8], n: usize, table: &mut [u64])
    requires { n + length c.now ≤ 8 * length table.old }
    ensures { Spelt n (lows c.now) table.old table.new }
{
    let eights = c.len() / 8;
    for j in 0..eights {
        put_some(table, n + 8 * j, low_eight(c, 8 * j), 8);
    }
    let from = 8 * eights;
    let rest = &c[from..];
    if !rest.is_empty() {
        put_some(table, n + from, low_some(rest), rest.len());
    }
}

// How far back the codes of a repeat of m are the same: a multiple of m, and eight at least.
fn period_of(m: usize) -> usize
    requires { m ≤ 131072 }
    ensures { Period m result }
{
    if m >= 8 { m } else { 8 * m }
}

// The m codes behind n others stand there k times, and are there up to `from`; eight at a time where a word begins.
fn copy_from(table: &mut [u64], n: usize, m: usize, k: usize, from: usize)
    requires { (n + m ≤ from) × (from ≤ n + k * m) × (n + k * m ≤ 8 * length table.old) × (n + k * m ≤ 131072) }
    ensures { SpeltFrom n m k from table.old table.new }
{
    let end = n + k * m;
    let period = period_of(m);
    let mut to = from;
    // A step is one code or eight, as the codes lie, so no `for` counts it.
    while to < end {
        if end - to >= 8 && to % 8 == 0 && to - n >= period {
            table[to / 8] = eight_at(table, to - period);
            to += 8;
            continue;
        }
        put_some(table, to, code_at(table, to - m) << 56, 1);
        to += 1;
    }
}

// The first m words of the table stand there again and again, so many words in all.
fn copy_whole(table: &mut [u64], words: usize, m: usize)
    requires { (0 < m) × (m ≤ words) × (words ≤ length table.old) }
    ensures { table.new ≡ over (cycled words m table.old) table.old }
{
    let q = words / m;
    copy_words(table, m, q);
    copy_plain(table, q * m, words % m);
}

// The m codes behind n others stand there k times. Eight copies are m words: of many copies the first sixteen are made, then whole
// words are copied from the first that begins behind the n codes, and then the rest.
pub fn copy_codes(table: &mut [u64], n: usize, m: usize, k: usize)
    requires { (0 < k) × (n + k * m ≤ 8 * length table.old) × (n + k * m ≤ 131072) }
    ensures { SpeltAgain n m k table.old table.new }
{
    if m == 0 {
        return;
    }
    if k < 24 {
        copy_from(table, n, m, k, n + m);
        return;
    }
    copy_from(table, n, m, 16, n + m);
    let first = (n + 7) / 8;
    let last = (n + k * m) / 8;
    copy_whole(&mut table[first..], last - first, m);
    copy_from(table, n, m, k, 8 * last);
}
