// Padding between objects, eight bytes at a time as long as there are eight.
ghost use Rattle.std.specs.Prelude.{◌≤◌, length};
ghost use Rattle.wire.specs.Ranges.{Ranged};

use super::span::{each, eights};

// How far from i on words of eight bytes are padding.
pub(crate) fn padded_eights(s: &[u8], i: usize) -> usize
    requires { i ≤ length s.now }
    ensures { Ranged 0xff 0xff i result s.now }
{
    eights(s, i, |w| w == u64::MAX)
}

// Where the padding from i on ends.
pub fn padding_end(s: &[u8], i: usize) -> usize
    requires { i ≤ length s.now }
    ensures { Ranged 0xff 0xff i result s.now }
{
    each(s, padded_eights(s, i), 0xff, 0xff)
}
