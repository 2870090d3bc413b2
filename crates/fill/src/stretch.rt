// Stretches: the rows of many small objects, laid out in a tight loop. The bytes and the table go with a place in each, and not as the
// parts from there on: on INTs of 1, 2, 3 and 9 bytes a table is laid out in 1,186,231 instructions so, and with parts in 1,284,428.
ghost use Rattle.std.specs.Prelude.{◌≡◌, ◌+◌, ◌*◌, ◌^◌, ◌<◌, ◌≤◌, [], ◌∷◌, length};
ghost use Rattle.format.specs.Kinds as K;
ghost use Rattle.format.specs.Lent.{over_at};
ghost use Rattle.fill.specs.Stretch.{RowsInRange, LongOf, Stretched};

use super::place::put_row;
use format::Class;
use format::kinds::Kind;
use format::signed::word_of;
use format::tree::class_of;
use wire::integer::{following_of, integer_of};
use wire::padding::padding_end;

// Where a stretch ends, and how many rows it has.
#[derive(Clone, Copy)]
pub struct Stretch {
    pub upto: usize,
    pub rows: usize,
}

// A row whose second word is 0, behind `at` words of the table.
fn put_at(table: &mut [u64], at: usize, kind: Kind, value: u64)
    requires { at + 3 ≤ length table.old }
    ensures { table.new ≡ over_at at (K.word_of kind ∷ 0 ∷ value ∷ []) table.old }
{
    put_row(&mut table[at..], kind, 0, value);
}

// One such row, of the item that is the byte at i alone.
fn put_one(table: &mut [u64], at: usize, i: usize, kind: Kind, value: u64) -> Stretch
    requires { (at + 3 ≤ length table.old) × (i + 1 < 2 ^ 64) }
    ensures { (result ≡ record { upto = i + 1; rows = 1 }) × (table.new ≡ over_at at (K.word_of kind ∷ 0 ∷ value ∷ []) table.old) }
{
    put_at(table, at, kind, value);
    Stretch {
        upto: i + 1,
        rows: 1,
    }
}

// A row of the kind for each of the bytes lo to hi from i on, as many as there are and as the table has room for behind `used`
// words.
fn put_range(
    s: &[u8],
    i: usize,
    table: &mut [u64],
    used: usize,
    lo: u8,
    hi: u8,
    kind: Kind,
) -> usize
    requires { (i ≤ length s.now) × (used ≤ length table.old) × RowsInRange lo hi (K.word_of kind) }
    ensures { Stretched s.now i used table.old table.new (i + result) result }
{
    let most = (s.len() - i).min((table.len() - used) / 3);
    for j in 0..most {
        let b = s[i + j];
        if b < lo || b > hi {
            return j;
        }
        put_at(table, used + 3 * j, kind, (b - lo) as u64);
    }
    most
}

// The rows of the integers from i on that all have the type-byte b and k bytes behind it: where the next one starts does not
// depend on what is read.
fn put_same(s: &[u8], i: usize, table: &mut [u64], used: usize, b: u8, k: usize) -> Stretch
    requires { (i ≤ length s.now) × (used ≤ length table.old) × LongOf b k }
    ensures { Stretched s.now i used table.old table.new result.upto result.rows }
{
    let most = (table.len() - used) / 3;
    let mut upto = i;
    for rows in 0..most {
        if s.len() - upto <= k || s[upto] != b {
            return Stretch { upto, rows };
        }
        let behind = upto + 1;
        let value = word_of(integer_of(&s[behind..], k));
        put_at(table, used + 3 * rows, Kind::Int, value);
        upto = behind + k;
    }
    Stretch { upto, rows: most }
}

// The rows of the objects of one class from i on, or padding; nothing where another object stands there, or an integer cut short.
fn put_class(s: &[u8], i: usize, table: &mut [u64], used: usize) -> Stretch
    requires { (i < length s.now) × (used + 3 ≤ length table.old) }
    ensures { Stretched s.now i used table.old table.new result.upto result.rows }
{
    let b = s[i];
    match class_of(b) {
        Class::Sinteger => {
            let n = put_range(s, i, table, used, 0x80, 0xbf, Kind::Int);
            Stretch {
                upto: i + n,
                rows: n,
            }
        }
        Class::Linteger => put_same(s, i, table, used, b, following_of(b)),
        Class::Char7 => {
            let n = put_range(s, i, table, used, 0, 0x7f, Kind::Char);
            Stretch {
                upto: i + n,
                rows: n,
            }
        }
        Class::Xtra => put_one(table, used, i, Kind::Xtra, (b % 4) as u64),
        Class::Bool => put_one(table, used, i, Kind::Bool, (b % 2) as u64),
        Class::Empty => put_one(table, used, i, Kind::Empty, 0),
        Class::Padding => {
            let upto = padding_end(s, i + 1);
            Stretch { upto, rows: 0 }
        }
        _ => Stretch { upto: i, rows: 0 },
    }
}

// The rows of the one-byte items and the integers from i on, padding among them, behind `used` words of the table. It ends at
// another object, at an integer that is cut short, and where the table does.
pub fn put_stretch(s: &[u8], i: usize, table: &mut [u64], used: usize) -> Stretch
    requires { (i ≤ length s.now) × (used ≤ length table.old) }
    ensures { Stretched s.now i used table.old table.new result.upto result.rows }
{
    let mut upto = i;
    let mut rows: usize = 0;
    // How far it goes on is known when an object has been read, so no `for` goes over the bytes.
    while upto < s.len() {
        let at = used + 3 * rows;
        if table.len() - at < 3 {
            return Stretch { upto, rows };
        }
        let l = put_class(s, upto, table, at);
        rows += l.rows;
        if l.upto == upto {
            return Stretch { upto, rows };
        }
        upto = l.upto;
    }
    Stretch { upto, rows }
}
