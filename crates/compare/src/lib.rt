// Two tables side by side: what changed from the one to the other. The contract of `compare` is one equation with the meaning in
// specs/Differences.antt: the answer, and every word of the lent list afterwards.
#![tactic(auto)]

ghost use Rattle.std.specs.Prelude.{◌≡◌, ◌≢◌, get_or};
ghost use Rattle.compare.specs.Differences.{comparing};
ghost use Rattle.compare.specs.Told.{compare_told, written_answer, refused_answer};
ghost use Rattle.compare.specs.Walks.{BothTables};

use crate::walk::{Apart, Pair, put_entry};
use format::fault::Refusal;
use table::judge::is_table;

mod walk;

// Comparing's answer: 0 or the number of a refusal, and the entries written or needed. Numbers and no Result: C is given this struct.
#[repr(C)]
#[derive(Clone, Copy)]
pub struct Comparing {
    pub number: usize,
    pub entries: usize,
}

impl Comparing {
    // So many entries are written.
    fn written(entries: usize) -> Comparing
        ensures { result ≡ written_answer entries }
    {
        Comparing { number: 0, entries }
    }

    // The list is left as lent, and so many entries are needed. Other operations have the like, each for the struct that C is given.
    fn refused(why: Refusal, entries: usize) -> Comparing
        ensures { result ≡ refused_answer why entries }
    {
        Comparing {
            number: why.number(),
            entries,
        }
    }
}

// Two tables with unlike numbers of outermost items: the one entry is the number of rows of each.
fn compare_counts(left: &[u64], right: &[u64], list: &mut [u64]) -> Comparing
    requires { BothTables left.now right.now × (get_or left.now 1 0 ≢ get_or right.now 1 0) }
    ensures { compare_told result list.new ≡ comparing left.now right.now list.old }
{
    if list.len() < 2 {
        return Comparing::refused(Refusal::ListShort, 1);
    }
    put_entry(list, 0, left[0], right[0]);
    Comparing::written(1)
}

// Two tables with as many outermost items. Nothing is written before it is known that the list has room. What stands before the first
// difference is looked at once, and what stands behind the last is not looked at again.
fn compare_items(left: &[u64], right: &[u64], list: &mut [u64]) -> Comparing
    requires { BothTables left.now right.now × (get_or left.now 1 0 ≡ get_or right.now 1 0) }
    ensures { compare_told result list.new ≡ comparing left.now right.now list.old }
{
    let mut apart = Apart {
        left,
        right,
        at: Pair { left: 0, right: 0 },
    };
    let Some(first) = apart.next() else {
        return Comparing::written(0);
    };
    let entries = 1 + apart.count();
    if list.len() / 2 < entries {
        return Comparing::refused(Refusal::ListShort, entries);
    }
    put_entry(list, 0, first.left as u64, first.right as u64);
    for (n, pair) in (1..entries).zip(apart) {
        put_entry(list, n, pair.left as u64, pair.right as u64);
    }
    Comparing::written(entries)
}

// The differences of any two tables, as pairs of rows, or a numbered refusal that leaves the list as lent.
pub fn compare(left: &[u64], right: &[u64], list: &mut [u64]) -> Comparing
    ensures { compare_told result list.new ≡ comparing left.now right.now list.old }
{
    if !is_table(left) || !is_table(right) {
        return Comparing::refused(Refusal::NotATable, 0);
    }
    if left[1] != right[1] {
        return compare_counts(left, right, list);
    }
    compare_items(left, right, list)
}
