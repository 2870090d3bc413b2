// LINTEGER values, and the INT at the front of an LBITSTR's or a REPEAT's contents.
ghost use Rattle.std.specs.Prelude.{◌≡◌, ◌+◌, ◌-◌, ◌*◌, ◌/◌, ◌^◌, ◌≤◌, ◌<◌, length, take};
ghost use Rattle.format.specs.Numbers.{val, signed};
ghost use Rattle.format.specs.Objects.{following, integer};
ghost use Rattle.wire.specs.Heads.{LeadingIs, Unpadded, linteger_at};
ghost use Rattle.wire.specs.WordsAt.{word_at};

use super::padding::padded_eights;
use format::Class;
use format::signed::value_of;
use format::tree::class_of;

// The INT at the front of contents: its value, and the bytes up to its end.
#[derive(Clone, Copy, Debug, PartialEq, Eq)]
pub struct Integer {
    pub value: i64,
    pub bytes: usize,
}

// Why there is none: another object stands there, or nothing; or it ends too early, at that place, with so many of its bytes missing.
#[derive(Clone, Copy, Debug, PartialEq, Eq)]
pub enum NoInteger {
    Absent,
    Cut(usize, usize),
}

// The data bytes that a type-byte E0-E7 or F0-F7 asks for.
pub fn following_of(b: u8) -> usize
    ensures { (result ≡ following b) × (0 < result) × (result ≤ 8) }
{
    (usize::from(b) + 7) % 8 + 1
}

// The number that eight bytes from i on make, high byte first.
pub fn word_at(s: &[u8], i: usize) -> u64
    requires { i + 8 ≤ length s.now }
    ensures { result ≡ word_at i s.now }
{
    u64::from_be_bytes([
        s[i],
        s[i + 1],
        s[i + 2],
        s[i + 3],
        s[i + 4],
        s[i + 5],
        s[i + 6],
        s[i + 7],
    ])
}

// The number that the first k bytes make, high byte first, a byte at a time.
fn number_by_bytes(s: &[u8], k: usize) -> u64
    requires { (k ≤ length s.now) × (k ≤ 8) }
    ensures { (result ≡ val (take k s.now)) × (result < 256 ^ k) }
{
    let mut n = 0;
    for b in &s[..k] {
        n = n * 256 + u64::from(*b);
    }
    n
}

// A word whose high k bytes are the first k: of eight bytes where so many are there.
fn high_word(s: &[u8], k: usize) -> u64
    requires { (0 < k) × (k ≤ length s.now) × (k ≤ 8) }
    ensures { (result / 2 ^ (64 - 8 * k) ≡ val (take k s.now)) × (val (take k s.now) < 256 ^ k) }
{
    if s.len() >= 8 {
        word_at(s, 0)
    } else {
        number_by_bytes(s, k) << (64 - 8 * k)
    }
}

// The number that the first k bytes make, high byte first.
pub fn number(s: &[u8], k: usize) -> u64
    requires { (0 < k) × (k ≤ length s.now) × (k ≤ 8) }
    ensures { (result ≡ val (take k s.now)) × (result < 256 ^ k) }
{
    high_word(s, k) >> (64 - 8 * k)
}

// The whole number that the first k bytes stand for in two's complement.
pub fn integer_of(s: &[u8], k: usize) -> i64
    requires { (0 < k) × (k ≤ length s.now) × (k ≤ 8) }
    ensures { result ≡ integer (take k s.now) }
{
    value_of(high_word(s, k)) >> (64 - 8 * k)
}

// Where the padding at the front ends: passed eight bytes at a time as long as there are eight. Mostly there is none.
#[tactic(auto, using(crate::proofs::Leadings::skip_none))]
fn unpadded(s: &[u8]) -> usize
    ensures { Unpadded s.now result }
{
    if s.first() != Some(&0xff) {
        return 0;
    }
    for i in padded_eights(s, 0)..s.len() {
        if s[i] != 0xff {
            return i;
        }
    }
    s.len()
}

// An LINTEGER whose type-byte b stands at s[i].
fn linteger_at(s: &[u8], i: usize, b: u8) -> Result<Integer, NoInteger>
    requires { i < length s.now }
    ensures { result ≡ linteger_at s.now i b }
{
    let k = following_of(b);
    let from = i + 1;
    let there = s.len() - from;
    if there < k {
        return Err(NoInteger::Cut(i, k - there));
    }
    Ok(Integer {
        value: integer_of(&s[from..], k),
        bytes: from + k,
    })
}

// The INT object at the front of contents, after any padding.
pub fn leading_of(s: &[u8]) -> Result<Integer, NoInteger>
    ensures { LeadingIs s.now result }
{
    let i = unpadded(s);
    if i >= s.len() {
        return Err(NoInteger::Absent);
    }
    let b = s[i];
    match class_of(b) {
        Class::Sinteger => Ok(Integer {
            value: i64::from(b % 64),
            bytes: i + 1,
        }),
        Class::Linteger => linteger_at(s, i, b),
        _ => Err(NoInteger::Absent),
    }
}
