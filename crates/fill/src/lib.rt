// Lays out the table of a message that is accepted and has room: header, rows, data words. Nothing here refuses anything.
#![tactic(auto)]

ghost use Rattle.std.specs.Prelude.{◌≡◌, ◌+◌, ◌*◌, ◌≤◌, [], ◌∷◌, length};
ghost use Rattle.format.specs.Messages.{outcome};
ghost use Rattle.format.specs.Answers.{over};
ghost use Rattle.fill.specs.Whole.{Roomy, ItemsPut, laid_out};
ghost use Rattle.format.specs.Refusals.{byte_limit, row_limit};

mod bits;
mod codes;
mod copies;
mod place;
mod plain;
mod stretch;
mod text;
mod tries;
mod walk;

use place::Place;
use walk::fill_run;

// Rows and data words, behind the header; answers the number of outermost items.
fn put_items(message: &[u8], table: &mut [u64], rows: usize, words: usize) -> usize
    requires { (length message.now ≤ byte_limit) × Roomy (outcome message.now) rows words (length table.old) }
    ensures { ItemsPut (outcome message.now) table.old table.new result }
{
    if rows == 0 {
        return 0;
    }
    let place = Place {
        gap: 3 * rows,
        base: 0,
    };
    fill_run(0, message, place, &mut table[4..]).count
}

fn put_header(table: &mut [u64], rows: usize, count: usize, words: usize)
    requires { (4 ≤ length table.old) × (rows ≤ row_limit) }
    ensures { table.new ≡ over (rows ∷ count ∷ (4 + 3 * rows) ∷ words ∷ []) table.old }
{
    table[0] = rows as u64;
    table[1] = count as u64;
    table[2] = (4 + 3 * rows) as u64;
    table[3] = words as u64;
}

// The whole table of a message whose rows and data words have been counted.
pub fn fill(message: &[u8], table: &mut [u64], rows: usize, words: usize)
    requires { (length message.now ≤ byte_limit) × Roomy (outcome message.now) rows words (length table.old) }
    ensures { table.new ≡ laid_out (outcome message.now) table.old }
{
    let count = put_items(message, table, rows, words);
    put_header(table, rows, count, words);
}
