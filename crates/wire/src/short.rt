// Containers and strings whose size is one byte, as that of most is.
ghost use Rattle.std.specs.Prelude.{◌≡◌};
ghost use Rattle.wire.specs.Heads.{ShortIs, has_elements, wrap_by};

use super::head::Wrap;
use format::Class;
use format::limits::DEEPEST;
use format::tree::class_of;

// How a container of the type-byte C2, C5 or C3 closes.
pub fn wrap_by(b: u8) -> Wrap
    ensures { result ≡ wrap_by b }
{
    match class_of(b) {
        Class::Edt => Wrap::Edt,
        Class::Ustruc => Wrap::Ustruc,
        _ => Wrap::Struc,
    }
}

// Whether a type-byte is one of these or a STRING's: its contents are elements, with no length or count before them.
fn has_elements(b: u8) -> bool
    ensures { result ≡ has_elements b }
{
    matches!(
        class_of(b),
        Class::Struc | Class::Edt | Class::Ustruc | Class::String
    )
}

// The size of a STRUC, USTRUC, EDT or STRING whose size field is one byte from 1 to 127 and which lies within the bytes s behind
// its type-byte b.
pub fn short_size(depth: usize, b: u8, s: &[u8]) -> Option<usize>
    ensures { ShortIs depth b s.now result }
{
    if !has_elements(b) || depth >= DEEPEST {
        return None;
    }
    let [n, ..] = *s else {
        return None;
    };
    if n == 0 || n >= 0x80 {
        return None;
    }
    let size = usize::from(n);
    if s.len() - 1 < size {
        return None;
    }
    Some(size)
}
