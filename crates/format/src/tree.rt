// The RFC's tree: the class of a type-byte, by the ones at its high end.
ghost use Rattle.std.specs.Prelude.{◌≡◌, ◌↔◌, IsTrue, eqb};
ghost use Rattle.format.specs.Classes.{class_of};
ghost use Rattle.format.specs.Ones.{high_ones};

use super::Class;

// The ones at the high end of a byte: as many as its complement has zeros there.
pub fn ones_of(b: u8) -> u32
    ensures { result ≡ high_ones b }
{
    u8::leading_zeros(!b)
}

// The class of a type-byte. The picture is entered at its high bit: each 1 leads a step down, and the first 0 leads off to the
// class. On the left are the ones passed by then; in brackets, the bits that are left to say more.
//
//      high bit
//   0  |--- 0        CHAR7 (7)                          00-7F
//      1
//   1  |--- 0        SINTEGER (6)                       80-BF
//      1
//   2  |--- 0        the non-atomic objects (5):        C0-DF
//      |             1 LBITSTR, 2 STRUC, 3 EDT, 4 REPEAT, 5 USTRUC, 6 STRING, all others reserved
//      1
//   3  |--- 0 --- 0  LINTEGER (3)                       E0-E7
//      |       |- 1  reserved (3)                       E8-EF
//      1
//   4  |--- 0        SBITSTR (3)                        F0-F7
//      1
//   5  |--- 0        XTRA (2)                           F8-FB
//      1
//   6  |--- 0        BOOL (1)                           FC-FD
//      1
//   7  |--- 0        EMPTY                              FE
//      1
//   8  |             PADDING                            FF
pub fn class_of(b: u8) -> Class
    ensures { result ≡ class_of b }
{
    match ones_of(b) {
        0 => Class::Char7,
        1 => Class::Sinteger,
        2 => match b % 32 {
            1 => Class::Lbitstr,
            2 => Class::Struc,
            3 => Class::Edt,
            4 => Class::Repeat,
            5 => Class::Ustruc,
            6 => Class::String,
            _ => Class::Reserved,
        },
        3 => {
            if b / 8 % 2 == 0 {
                Class::Linteger
            } else {
                Class::Reserved
            }
        }
        4 => Class::Sbitstr,
        5 => Class::Xtra,
        6 => Class::Bool,
        7 => Class::Empty,
        _ => Class::Padding,
    }
}

// Whether a type-byte is of this class.
pub fn is(class: Class, b: u8) -> bool
    ensures { IsTrue result ↔ (class_of b ≡ class) }
{
    class_of(b) == class
}

// Whether a type-byte is that of a non-atomic object.
pub fn is_non_atomic(b: u8) -> bool
    ensures { result ≡ eqb (high_ones b) 2 }
{
    ones_of(b) == 2
}
