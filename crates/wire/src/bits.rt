// SBITSTRs that are whole, told without the head of any object.
ghost use Rattle.std.specs.Prelude.{◌≡◌, ◌≤◌, ◌<◌, length};
ghost use Rattle.format.specs.Objects.{following};
ghost use Rattle.wire.specs.Heads.{BitsIs, marked_word};

use super::integer::{following_of, number};
use format::Class;
use format::tree::{is, ones_of};

// The bits of the SBITSTR of the type-byte b which lies within the bytes s behind it and has its marker. The zeros before the marker
// are the ones of the complement.
pub fn sbits_of(b: u8, s: &[u8]) -> Option<usize>
    ensures { BitsIs b s.now result }
{
    if !is(Class::Sbitstr, b) {
        return None;
    }
    let k = following_of(b);
    if s.len() < k {
        return None;
    }
    let first = s[0];
    if first == 0 {
        return None;
    }
    let zeros = ones_of(!first) as usize;
    Some(8 * k - 1 - zeros)
}

// The n bits of such an SBITSTR, left-adjusted in a word: the marker is pushed out.
pub fn sbits_word(b: u8, s: &[u8], n: usize) -> u64
    requires { (0 < n) × (n ≤ 63) × (following b ≤ length s.now) }
    ensures { result ≡ marked_word b s.now n }
{
    number(s, following_of(b)) << (64 - n)
}
