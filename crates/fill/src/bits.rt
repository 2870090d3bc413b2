// The data words of a BITS.
ghost use Rattle.std.specs.Prelude.{◌≡◌, ◌+◌, ◌*◌, ◌<◌, ◌≤◌, length, take};
ghost use Rattle.format.specs.Bits.{spread, adjusted, packed, bytes_for, words_for};
ghost use Rattle.format.specs.Answers.{over};

use wire::integer::{number, word_at};

// The first n bits of the bytes c, left-adjusted in a word whose other bits are 0.
fn word_of(c: &[u8], n: usize) -> u64
    requires { (0 < n) × (n < 64) × (bytes_for n ≤ length c.now) }
    ensures { result ≡ adjusted 64 (take n (spread 8 c.now)) }
{
    let k = n.div_ceil(8);
    (number(c, k) >> (8 * k - n)) << (64 - n)
}

// The n bits that are left-adjusted in the bytes c, as words.
pub fn put_bits(c: &[u8], n: usize, table: &mut [u64])
    requires { (bytes_for n ≤ length c.now) × (n ≤ 1048576) × (words_for n ≤ length table.old) }
    ensures { table.new ≡ over (packed 64 (words_for n) (take n (spread 8 c.now))) table.old }
{
    // Whole words in a loop without a branch, of which the compiler takes several at a time, and then what is left.
    let whole = n / 64;
    for j in 0..whole {
        table[j] = word_at(c, 8 * j);
    }
    let left = n % 64;
    if left > 0 {
        table[whole] = word_of(&c[8 * whole..], left);
    }
}
