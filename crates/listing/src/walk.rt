// The lines of a run of rows. Each row is visited once.
ghost use Rattle.std.specs.Prelude.{◌+◌, ◌≤◌};
ghost use Rattle.format.specs.Normal.{depth};
ghost use Rattle.format.specs.Refusals.{depth_limit};
ghost use Rattle.table.specs.Rows.{Run, items_at};
ghost use Rattle.listing.specs.Lines.{lines};
ghost use Rattle.listing.specs.Puts.{Fits, Put};

use crate::output::Output;
use crate::rows::{Row, put_row};
use table::rows::next_row;

// The rows from `from` up to `to`, which stand inside `level` containers; the elements of a container stand one level deeper.
pub fn put_run(table: &[u64], from: usize, to: usize, level: usize, out: &mut Output)
    requires run { Run table.now from to × (level + depth (items_at table.now from to) ≤ depth_limit) }
    requires room { Fits (lines level (items_at table.now from to)) out.old }
    ensures { Put (lines level (items_at table.now from to)) out.old out.new }
{
    // A `while`, since each step is as long as the item's rows.
    let mut p = from;
    while p < to {
        put_row(&Row { table, p }, level, out);
        let next = next_row(table, p);
        if p + 1 < next {
            put_run(table, p + 1, next, level + 1, out);
        }
        p = next;
    }
}
