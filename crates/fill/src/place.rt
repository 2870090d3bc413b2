// What is written into the table that is lent: where, and how much of it.
ghost use Rattle.std.specs.Prelude.{◌≡◌, ◌+◌, ◌-◌, ◌*◌, ◌^◌, ◌<◌, ◌≤◌, [], ◌∷◌, length};
ghost use Rattle.format.specs.Kinds.{word_of};
ghost use Rattle.format.specs.Answers.{over};

use format::kinds::Kind;
use std::ops::AddAssign;

// Where rows and data words go: the rows to the front of the table; the data start `gap` words on, and `base` words of them come
// before. The table goes beside it: the borrow checker covers no `&mut place.table[n..]`, by which a place that holds the table
// would be lent on.
#[derive(Clone, Copy)]
pub struct Place {
    pub gap: usize,
    pub base: usize,
}

impl Place {
    // The next data word.
    pub fn data(self) -> usize
        requires { self.gap + self.base < 2 ^ 64 }
        ensures { result ≡ self.gap + self.base }
    {
        self.gap + self.base
    }

    // Behind a container's own row of so many words; the table is lent on from there.
    pub fn inside(self, own: usize) -> Place
        requires { own ≤ self.gap }
        ensures { result ≡ record { gap = self.gap - own; base = self.base } }
    {
        Place {
            gap: self.gap - own,
            base: self.base,
        }
    }

    // Behind what is written there; the table is lent on from behind its rows.
    pub fn behind(self, f: Filled) -> Place
        requires { (3 * f.rows ≤ self.gap) × (self.base + f.words < 2 ^ 64) }
        ensures { result ≡ record { gap = self.gap - 3 * f.rows; base = self.base + f.words } }
    {
        Place {
            gap: self.gap - 3 * f.rows,
            base: self.base + f.words,
        }
    }
}

// How much is written: rows, items outermost among them, and data words.
#[derive(Clone, Copy, Default)]
pub struct Filled {
    pub rows: usize,
    pub count: usize,
    pub words: usize,
}

impl Filled {
    // One item of one row, and of so many data words.
    pub fn item(words: usize) -> Filled
        ensures { result ≡ record { rows = 1; count = 1; words = words } }
    {
        Filled {
            rows: 1,
            count: 1,
            words,
        }
    }

    // So many items of one row each, and of no data words.
    pub fn small(rows: usize) -> Filled
        ensures { result ≡ record { rows = rows; count = rows; words = 0 } }
    {
        Filled {
            rows,
            count: rows,
            words: 0,
        }
    }

    // The same again and again, k times in all.
    pub fn times(self, k: usize) -> Filled
        requires { (k * self.rows < 2 ^ 64) × (k * self.count < 2 ^ 64) × (k * self.words < 2 ^ 64) }
        ensures { result ≡ record { rows = k * self.rows; count = k * self.count; words = k * self.words } }
    {
        Filled {
            rows: k * self.rows,
            count: k * self.count,
            words: k * self.words,
        }
    }

    // One item, whose row stands before these.
    pub fn grouped(self) -> Filled
        requires { self.rows + 1 < 2 ^ 64 }
        ensures { result ≡ record { rows = self.rows + 1; count = 1; words = self.words } }
    {
        Filled {
            rows: self.rows + 1,
            count: 1,
            words: self.words,
        }
    }

    // As what an object comes to that has so many bytes past its type-byte.
    pub fn past(self, past: usize) -> Placed
        ensures { result ≡ record { filled = self; past = past } }
    {
        Placed { filled: self, past }
    }
}

// More behind it.
impl AddAssign for Filled {
    ghost can_add_assign = { λ a b. (a.rows + b.rows < 2 ^ 64) × (a.count + b.count < 2 ^ 64) × (a.words + b.words < 2 ^ 64) };

    ghost add_assign_gives = { λ a b c. c ≡ record { rows = a.rows + b.rows; count = a.count + b.count; words = a.words + b.words } };

    fn add_assign(&mut self, more: Filled) {
        self.rows += more.rows;
        self.count += more.count;
        self.words += more.words;
    }
}

// What the walk wrote of an object, and the object's bytes past the type-byte.
#[derive(Clone, Copy)]
pub struct Placed {
    pub filled: Filled,
    pub past: usize,
}

// A row to the front of the table.
pub fn put_row(table: &mut [u64], kind: Kind, a: u64, b: u64)
    requires { 3 ≤ length table.old }
    ensures { table.new ≡ over (word_of kind ∷ a ∷ b ∷ []) table.old }
{
    table[0] = kind.word();
    table[1] = a;
    table[2] = b;
}
