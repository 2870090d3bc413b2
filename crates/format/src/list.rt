// The list of 256, the check against the tree: at every entry the two are proved to say the same. Nothing asks it when a message
// is read or written.
ghost use Rattle.std.specs.Prelude.{◌≡◌};
ghost use Rattle.format.specs.Classes.{class_of};
ghost use Rattle.format.specs.Codes.{code_of};

// The class of each type-byte in order, as its place in the enum of classes. Codes, since of an array of classes the goal `returns`
// of `listed` did not close: the proof builds such an array entry by entry.
const CLASSES: [u8; 256] = [
    // 00-7F: CHAR7
    0, 0, 0, 0, 0, 0, 0, 0, 0, 0, 0, 0, 0, 0, 0, 0, 0, 0, 0, 0, 0, 0, 0, 0, 0, 0, 0, 0, 0, 0, 0, 0,
    0, 0, 0, 0, 0, 0, 0, 0, 0, 0, 0, 0, 0, 0, 0, 0, 0, 0, 0, 0, 0, 0, 0, 0, 0, 0, 0, 0, 0, 0, 0, 0,
    0, 0, 0, 0, 0, 0, 0, 0, 0, 0, 0, 0, 0, 0, 0, 0, 0, 0, 0, 0, 0, 0, 0, 0, 0, 0, 0, 0, 0, 0, 0, 0,
    0, 0, 0, 0, 0, 0, 0, 0, 0, 0, 0, 0, 0, 0, 0, 0, 0, 0, 0, 0, 0, 0, 0, 0, 0, 0, 0, 0, 0, 0, 0, 0,
    // 80-BF: SINTEGER
    1, 1, 1, 1, 1, 1, 1, 1, 1, 1, 1, 1, 1, 1, 1, 1, 1, 1, 1, 1, 1, 1, 1, 1, 1, 1, 1, 1, 1, 1, 1, 1,
    1, 1, 1, 1, 1, 1, 1, 1, 1, 1, 1, 1, 1, 1, 1, 1, 1, 1, 1, 1, 1, 1, 1, 1, 1, 1, 1, 1, 1, 1, 1, 1,
    // C0: reserved or unassigned
    14,
    // C1: LBITSTR
    4,
    // C2: STRUC
    6,
    // C3: EDT
    8,
    // C4: REPEAT
    9,
    // C5: USTRUC
    7,
    // C6: STRING
    5,
    // C7-DF: reserved or unassigned
    14, 14, 14, 14, 14, 14, 14, 14, 14, 14, 14, 14, 14, 14, 14, 14, 14, 14, 14, 14, 14, 14, 14, 14,
    14,
    // E0-E7: LINTEGER
    2, 2, 2, 2, 2, 2, 2, 2,
    // E8-EF: reserved or unassigned
    14, 14, 14, 14, 14, 14, 14, 14,
    // F0-F7: SBITSTR
    3, 3, 3, 3, 3, 3, 3, 3,
    // F8-FB: XTRA
    10, 10, 10, 10,
    // FC-FD: BOOL
    11, 11,
    // FE: EMPTY
    12,
    // FF: PADDING
    13,
];

// What the list has for a type-byte.
pub fn listed(b: u8) -> u8
    ensures { result ≡ code_of (class_of b) }
{
    CLASSES[b as usize]
}
