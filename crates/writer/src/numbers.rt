// Whole numbers in bytes: the fewest that hold one, sizes and integers in normal form.
ghost use Rattle.std.specs.Prelude.{◌≡◌, ◌∷◌, ◌+◌, ◌*◌, ◌%◌, ◌^◌, ◌≤◌, ◌<◌, length};
ghost use Rattle.std.specs.Int.Signed.{mag};
ghost use Rattle.format.specs.Numbers.{be, signed, width};
ghost use Rattle.format.specs.Normal.{normal_int, normal_size};
ghost use Rattle.format.specs.Answers.{over};

use format::signed::value_of;

// The fewest bytes, one at least, that hold a number.
#[tactic(auto, using(crate::proofs::NumberLaws::sizes))]
pub fn width(n: u64) -> usize
    ensures value { result ≡ width n }
    ensures bound { result ≤ 8 }
{
    // Most numbers and sizes take one byte: asking for the highest bit of each costs a BITS a quarter of its time.
    if n < 256 {
        return 1;
    }
    1 + n.ilog2() as usize / 8
}

// How many bytes the size field of `n` bytes takes.
#[tactic(auto, using(crate::proofs::NumberLaws::sizes))]
pub fn size_length(n: usize) -> usize
    ensures { result ≡ length (normal_size n) }
{
    match n {
        0 => 2,
        1..=128 => 1,
        _ => 1 + width(n as u64),
    }
}

// Twice the magnitude of a signed number, which is -1 - z where it is negative: k bytes hold it if this is below 256 ^ k.
fn doubled(z: i64) -> u64
    ensures { result ≡ 2 * mag z }
{
    2 * z.max(-1 - z).cast_unsigned()
}

#[tactic(auto, using(crate::proofs::NumberLaws::integers))]
pub fn int_length(v: u64) -> usize
    ensures { result ≡ length (normal_int (signed 8 v)) }
{
    if v < 64 {
        1
    } else {
        1 + width(doubled(value_of(v)))
    }
}

// The low four bytes of `n`, the high byte first.
#[tactic(auto, using(crate::proofs::NumberLaws::four_put))]
fn put_four(out: &mut [u8], n: u64)
    requires { 4 ≤ length out.old }
    ensures { out.new ≡ over (be 4 (n % 256 ^ 4)) out.old }
{
    let low = (n % 0x1_0000_0000) as u32;
    out[..4].copy_from_slice(&low.to_be_bytes());
}

// The low `k` bytes of `n`, the high byte first, one by one.
fn put_each(out: &mut [u8], k: usize, n: u64)
    requires { k ≤ length out.old }
    ensures { out.new ≡ over (be k (n % 256 ^ k)) out.old }
{
    let mut x = n;
    for i in (0..k).rev() {
        out[i] = (x % 256) as u8;
        x /= 256;
    }
}

// The same of up to eight, the first four together where there are so many. A copy of so many as are not known before takes ten
// instructions more.
pub fn put_low(out: &mut [u8], k: usize, n: u64)
    requires { (k ≤ 8) × (k ≤ length out.old) }
    ensures { out.new ≡ over (be k (n % 256 ^ k)) out.old }
{
    if k < 4 {
        put_each(out, k, n);
    } else {
        put_four(out, n >> (8 * (k - 4)));
        put_each(&mut out[4..], k - 4, n);
    }
}

// The eight bytes of a word.
#[tactic(auto, using(crate::proofs::NumberLaws::word_put))]
pub fn put_word(out: &mut [u8], n: u64)
    requires { 8 ≤ length out.old }
    ensures { out.new ≡ over (be 8 n) out.old }
{
    out[..8].copy_from_slice(&n.to_be_bytes());
}

// A first byte, and the low `k` bytes of `n` behind it. The answer here and below is how many bytes that is.
#[tactic(auto, using(crate::proofs::NumberLaws::byte_then))]
pub fn put_tagged(out: &mut [u8], tag: u8, k: usize, n: u64) -> usize
    requires { (k ≤ 8) × (k < length out.old) }
    ensures value { result ≡ 1 + k }
    ensures out_after { out.new ≡ over (tag ∷ be k (n % 256 ^ k)) out.old }
{
    out[0] = tag;
    put_low(&mut out[1..], k, n);
    1 + k
}

#[tactic(auto, using(crate::proofs::NumberLaws::sizes))]
pub fn put_size(out: &mut [u8], n: usize) -> usize
    requires { length (normal_size n) ≤ length out.old }
    ensures value { result ≡ length (normal_size n) }
    ensures out_after { out.new ≡ over (normal_size n) out.old }
{
    if n == 0 {
        out[..2].copy_from_slice(&[0x81, 0]);
        2
    } else if n < 128 {
        out[0] = n as u8;
        1
    } else if n == 128 {
        out[0] = 0;
        1
    } else {
        let k = width(n as u64);
        put_tagged(out, (0x80 + k) as u8, k, n as u64)
    }
}

#[tactic(auto, using(crate::proofs::NumberLaws::integers))]
pub fn put_int(out: &mut [u8], v: u64) -> usize
    requires { length (normal_int (signed 8 v)) ≤ length out.old }
    ensures value { result ≡ length (normal_int (signed 8 v)) }
    ensures out_after { out.new ≡ over (normal_int (signed 8 v)) out.old }
{
    if v < 64 {
        out[0] = (0x80 + v) as u8;
        1
    } else {
        let k = width(doubled(value_of(v)));
        put_tagged(out, (0xe0 + k % 8) as u8, k, v)
    }
}
