// Objects of one byte, one behind another, passed many at a time.
ghost use Rattle.std.specs.Prelude.{◌≤◌, ◌<◌, IfSome, length};
ghost use Rattle.explain.specs.Told.{Singles, Quiet};

use format::kinds::Kind;
use wire::padding::padding_end;
use wire::span::{chars_end, until};

pub const PADDING: u8 = 0xff;

// How far from i on there are only CHARs and small INTs, or only padding; none where another object stands.
pub fn singles_end(m: &[u8], i: usize, end: usize) -> Option<usize>
    requires { (i < end) × (end ≤ length m.now) }
    ensures { IfSome result (λ r. (i < r) × Singles m.now i r end) }
{
    let part = &m[..end];
    let r = match m[i] {
        PADDING => padding_end(part, i),
        0..=0xbf => until(part, i, 0, 0xbf),
        _ => return None,
    };
    (r > i).then_some(r)
}

// How far from i on the bytes change nothing of what is told of the elements: padding; and, where a second element is found, CHARs or
// small INTs of the kind asked for. None where no byte does so.
pub fn quiet_end(m: &[u8], asked: Option<Kind>, found: bool, i: usize, end: usize) -> Option<usize>
    requires { (i < end) × (end ≤ length m.now) }
    ensures { IfSome result (λ r. (i < r) × Quiet m.now asked found i r end) }
{
    let part = &m[..end];
    let r = match (m[i], asked) {
        (PADDING, _) => padding_end(part, i),
        (0..=0x7f, Some(Kind::Char)) if found => chars_end(part, i),
        (0x80..=0xbf, Some(Kind::Int)) if found => until(part, i, 0x80, 0xbf),
        _ => return None,
    };
    (r > i).then_some(r)
}
