// The limits, each written here alone.
ghost use Rattle.std.specs.Prelude.{◌<◌, ◌↔◌, ◌⊎◌, IsTrue};
ghost use Rattle.format.specs.Refusals.{row_limit, word_limit};

// The bytes of a message, and of a normal form.
pub const MOST_BYTES: usize = 65536;

// The rows of a table, and its data words.
pub const MOST_ROWS: usize = 16384;

pub const MOST_WORDS: usize = 16384;

// Containers inside one another.
pub const DEEPEST: usize = 16;

// Whether so many rows, or so many data words, are more than a table has.
pub fn too_many(rows: usize, words: usize) -> bool
    ensures { IsTrue result ↔ ((row_limit < rows) ⊎ (word_limit < words)) }
{
    rows > MOST_ROWS || words > MOST_WORDS
}
