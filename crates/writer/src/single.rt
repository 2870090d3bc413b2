// Items of one byte that come many in a row.
ghost use Rattle.std.specs.Prelude.{◌+◌, ◌≤◌, ◌<◌};

use format::kinds::{CHAR, INT};

// Those of one kind whose last word is below `bound`, and whose second word is 0. The byte is `low` plus the last word.
#[derive(Clone, Copy)]
pub struct OneByte {
    pub kind: u64,
    pub bound: u64,
    pub low: u64,
    pub ghost some: { 0 < bound },
    pub ghost byte: { low + bound ≤ 256 },
}

pub const CHARS: OneByte = OneByte {
    kind: CHAR,
    bound: 128,
    low: 0,
};

pub const INTS: OneByte = OneByte {
    kind: INT,
    bound: 64,
    low: 0x80,
};
