// Bits in the data words of a table.
ghost use Rattle.std.specs.Prelude.{◌≡◌, ◌+◌, ◌/◌, length};
ghost use Rattle.table.specs.Rows.{Kept};
ghost use Rattle.writer.specs.Forms.{Held};

use table::header::Framed;

// So many bits, in the data words from `first` on.
#[derive(Clone, Copy)]
pub struct Bits<'a> {
    pub table: Framed<'a>,
    pub first: usize,
    pub count: usize,
    pub ghost kept: { Kept table.words.now first count },
}

impl<'a> Bits<'a> {
    // The words that hold them.
    #[tactic(auto, using(crate::proofs::WordLaws::holding))]
    pub fn words(self) -> &'a [u64]
        ensures len { length result.now ≡ (self.entry.count + 63) / 64 }
        ensures each { Held self.entry.table.words.now self.entry.first result.now }
    {
        let from = self.table.data_start() + self.first;
        &self.table.words[from..from + self.count.div_ceil(64)]
    }
}
