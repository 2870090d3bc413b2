// Stretches: many small objects of one kind, counted in a tight loop and accounted for at once. Bytes and a place in them go side by
// side, as to wire::span and wire::padding: a cursor would be taken apart at each of their calls.
ghost use Rattle.std.specs.Prelude.{◌≡◌, true, ◌+◌, ◌≤◌, ◌<◌, length, ltb};
ghost use Rattle.std.specs.Bool.{then_some};
ghost use Rattle.format.specs.Objects.{following};
ghost use Rattle.wire.specs.Ranges.{Between, Ranged};
ghost use Rattle.scan.specs.Stretch.{Integers, Leapt};
ghost use Rattle.scan.specs.Sums.{one_of, power_of};

use super::summary::Summary;
use format::Class;
use format::kinds::Kind;
use format::tree::class_of;
use wire::integer::following_of;
use wire::padding::padding_end;
use wire::span::{all_low, chars_end, until};

// Where a stretch ends, and what its items come to.
#[derive(Clone, Copy)]
pub struct Leap {
    pub upto: usize,
    pub sum: Summary,
}

// Where a stretch of integers ends, and how many they are.
#[derive(Clone, Copy)]
struct Ints {
    upto: usize,
    many: usize,
}

// A stretch from i on of so many items of a kind, if it has bytes.
fn leap_to(i: usize, upto: usize, sum: Summary) -> Option<Leap>
    ensures { result ≡ then_some (ltb i upto) (record { upto = upto; sum = sum }) }
{
    (i < upto).then_some(Leap { upto, sum })
}

// So many items of a kind, which have one row each and no data words.
fn many_of(kind: Kind, many: usize) -> Summary
    ensures { result ≡ power_of many (one_of kind 1 0) }
{
    Summary::one(kind, 1, 0).times(many)
}

// The LINTEGERs from i on that have the type-byte b, of which each has `size` bytes.
fn same_ints(s: &[u8], i: usize, b: u8, size: usize) -> Ints
    requires { (i ≤ length s.now) × (0xe0 ≤ b) × (b ≤ 0xe7) × (size ≡ 1 + following b) }
    ensures { Integers s.now i result.upto result.many }
{
    let mut e = i;
    let mut many: usize = 0;
    // A chain over chunks_exact and take_while took 597,112 instructions for INTs of four sizes, and this loop 568,516.
    while s.len() - e >= size {
        if s[e] != b {
            return Ints { upto: e, many };
        }
        e += size;
        many += 1;
    }
    Ints { upto: e, many }
}

// How far the SINTEGERs from i on are passed: all of them where many bytes are left, else none. One byte tells where there is
// none.
fn smalls_end(s: &[u8], i: usize) -> usize
    requires { i ≤ length s.now }
    ensures { Ranged 0x80 0xbf i result s.now }
{
    if s.len() - i < 64 || !matches!(s[i], 0x80..=0xbf) {
        return i;
    }
    until(s, i, 0x80, 0xbf)
}

// The integers from i on, of one byte or more, as far as they are whole. Where many bytes are left, those of one class or of one
// type-byte are passed together. Inlined it takes the registers of the run's loop: mixed INTs then take 1.33 times the instructions.
#[inline(never)]
fn ints_from(s: &[u8], i: usize) -> Ints
    requires { i ≤ length s.now }
    ensures { Integers s.now i result.upto result.many }
{
    let mut e = i;
    let mut many: usize = 0;
    // How far a turn goes depends on the bytes that it meets.
    while e < s.len() {
        let left = s.len() - e;
        match s[e] {
            0x80..=0xbf => {
                let r = smalls_end(s, e + 1);
                many += r - e;
                e = r;
            }
            b @ 0xe0..=0xe7 => {
                let size = 1 + following_of(b);
                if left >= 64 {
                    let l = same_ints(s, e + size, b, size);
                    e = l.upto;
                    many += 1 + l.many;
                } else if left >= size {
                    e += size;
                    many += 1;
                } else {
                    break;
                }
            }
            _ => break,
        }
    }
    Ints { upto: e, many }
}

// Whether all bytes are CHAR7.
pub fn all_chars(s: &[u8]) -> bool
    requires { 0 < length s.now }
    ensures { result ≡ true → Between 0 0x7f 0 (length s.now) s.now }
{
    s[0] < 0x80 && all_low(s)
}

// The stretch of integers that starts at i.
fn ints_leap(s: &[u8], i: usize) -> Option<Leap>
    requires { i ≤ length s.now }
    ensures { Leapt s.now i result }
{
    let l = ints_from(s, i);
    leap_to(i, l.upto, many_of(Kind::Int, l.many))
}

// The stretch that starts at i: CHAR7s, integers of both classes, one item of another one-byte class, or padding; none where
// another object starts there.
pub fn leap_from(s: &[u8], i: usize) -> Option<Leap>
    requires { i < length s.now }
    ensures { Leapt s.now i result }
{
    match class_of(s[i]) {
        Class::Char7 => {
            let e = chars_end(s, i);
            leap_to(i, e, many_of(Kind::Char, e - i))
        }
        Class::Sinteger | Class::Linteger => ints_leap(s, i),
        Class::Xtra => leap_to(i, i + 1, many_of(Kind::Xtra, 1)),
        Class::Bool => leap_to(i, i + 1, many_of(Kind::Bool, 1)),
        Class::Empty => leap_to(i, i + 1, many_of(Kind::Empty, 1)),
        Class::Padding => leap_to(i, padding_end(s, i), Summary::default()),
        _ => None,
    }
}
