// Bytes that lie within a range: 64 at a time as long as there are 64, characters and padding then eight at a time. Bytes and a place in
// them go side by side: what is answered is the next place in the same bytes.
ghost use Rattle.std.specs.Prelude.{◌≡◌, true, ◌+◌, ◌≤◌, ◌<◌, length};
ghost use Rattle.wire.specs.Ranges.{Between, Ranged, Passed};

use super::integer::word_at;

// The least and the greatest of some bytes.
#[derive(Clone, Copy)]
struct Spread {
    low: u8,
    high: u8,
}

// Of the 64 bytes from i on. There is no way out of this loop, so that the compiler takes many bytes at a time.
fn spread_of(s: &[u8], i: usize) -> Spread
    requires { i + 64 ≤ length s.now }
    ensures { Between result.low result.high i (i + 64) s.now }
{
    let mut low = 255;
    let mut high = 0;
    for b in &s[i..i + 64] {
        low = low.min(*b);
        high = high.max(*b);
    }
    Spread { low, high }
}

// How far from i on blocks of 64 bytes are all lo to hi.
fn blocks(s: &[u8], i: usize, lo: u8, hi: u8) -> usize
    requires { i ≤ length s.now }
    ensures { Ranged lo hi i result s.now }
{
    // A `while`: over a range by steps of 64 what is left would be tested in the body all the same.
    let mut e = i;
    while s.len() - e >= 64 {
        let w = spread_of(s, e);
        if w.low < lo || w.high > hi {
            return e;
        }
        e += 64;
    }
    e
}

// How far from i on words of eight bytes pass a test.
pub(crate) fn eights<F: Fn(u64) -> bool>(s: &[u8], i: usize, passes: F) -> usize
    requires within { i ≤ length s.now }
    requires callable { F.IsAlwaysCallable passes }
    ensures { Passed (λ w. F.post passes w true) i result s.now }
{
    // A `while`, as above.
    let mut e = i;
    while s.len() - e >= 8 {
        if !passes(word_at(s, e)) {
            return e;
        }
        e += 8;
    }
    e
}

// How far from i on bytes are lo to hi, one by one.
pub(crate) fn each(s: &[u8], i: usize, lo: u8, hi: u8) -> usize
    requires { i ≤ length s.now }
    ensures { Ranged lo hi i result s.now }
{
    for e in i..s.len() {
        let b = s[e];
        if b < lo || b > hi {
            return e;
        }
    }
    s.len()
}

// Where the bytes from i on that are lo to hi end.
pub fn until(s: &[u8], i: usize, lo: u8, hi: u8) -> usize
    requires { i ≤ length s.now }
    ensures { Ranged lo hi i result s.now }
{
    each(s, blocks(s, i, lo, hi), lo, hi)
}

// How far from i on words of eight bytes are below 80 hex, byte by byte.
fn low_eights(s: &[u8], i: usize) -> usize
    requires { i ≤ length s.now }
    ensures { Ranged 0 0x7f i result s.now }
{
    eights(s, i, |w| w & 0x8080808080808080 == 0)
}

// Where the bytes from i on that are below 80 hex end.
pub fn chars_end(s: &[u8], i: usize) -> usize
    requires { i ≤ length s.now }
    ensures { Ranged 0 0x7f i result s.now }
{
    each(s, low_eights(s, blocks(s, i, 0, 0x7f)), 0, 0x7f)
}

// Whether all of a few bytes are below 80 hex.
pub fn all_low(s: &[u8]) -> bool
    ensures { result ≡ true → Between 0 0x7f 0 (length s.now) s.now }
{
    each(s, low_eights(s, 0), 0, 0x7f) == s.len()
}
