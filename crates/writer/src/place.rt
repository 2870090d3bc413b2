// Where the survey of a table stands.
ghost use Rattle.std.specs.Prelude.{◌≤◌, ◌<◌};
ghost use Rattle.table.specs.Rows.{rows_of, words_of};

use table::header::Framed;

// The row `p` among those up to `to`, where `base` data words came before it.
#[derive(Clone, Copy)]
pub struct Place<'a> {
    pub table: Framed<'a>,
    pub p: usize,
    pub to: usize,
    pub base: usize,
    pub ghost some: { p < to },
    pub ghost within: { to ≤ rows_of table.words.now },
    pub ghost fits: { base ≤ words_of table.words.now },
}
