// The data of a row: whether the bits of a BITS and the codes of a string stand where their row says.
ghost use Rattle.std.specs.Prelude.{◌≡◌, ◌+◌, ◌/◌, ◌^◌, ◌≤◌, ◌<◌, true, fold, bit_or};
ghost use Rattle.format.specs.Numbers.{be};
ghost use Rattle.table.specs.Rows.{words_of};
ghost use Rattle.table.specs.InOrder.{all_low, words_low, bits_ok, BitsJudged, TextJudged};

use crate::header::Framed;
use format::limits::MOST_WORDS;

#[tactic(auto, using(crate::proofs::BitRows::power))]
fn power(k: usize) -> u64
    requires { k < 64 }
    ensures { result ≡ 2 ^ k }
{
    1 << k
}

// The data words that so many bits take. Two instructions fewer than `div_ceil`, for each string and BITS.
fn words_for(bits: usize) -> usize
    requires { bits < 2 ^ 63 }
    ensures { result ≡ (bits + 63) / 64 }
{
    (bits + 63) / 64
}

// Whether so many bits stand in the data words from `first` on, where `base` data words came before them.
#[tactic(auto, unfolding(crate::specs::InOrder::bits_ok, crate::specs::InOrder::last_word, format::specs::Bits::words_for, format::specs::Choice::if_eq, format::specs::Choice::if_lt))]
fn bits_stand(table: Framed<'_>, bits: usize, first: usize, base: usize) -> bool
    requires { base ≤ words_of table.words.now }
    ensures value { result ≡ bits_ok table.entry.words.now base bits first }
    ensures fits { result ≡ true → base + (bits + 63) / 64 ≤ words_of table.entry.words.now }
{
    if first != base || 64 * (table.data() - base) < bits {
        return false;
    }
    let used = words_for(bits);
    let last = table.words[table.data_start() + base + used - 1];
    last % power(64 * used - bits) == 0
}

// The data words that they take, if they stand there.
#[tactic(auto, unfolding(format::specs::Bits::words_for))]
pub fn bits_row(table: Framed<'_>, bits: usize, first: usize, base: usize) -> Option<usize>
    requires { base ≤ words_of table.words.now }
    ensures { BitsJudged table.entry.words.now base bits first result }
{
    if bits_stand(table, bits, first, base) {
        Some(words_for(bits))
    } else {
        None
    }
}

// Whether all eight bytes of a word are below 128.
#[tactic(auto, using(crate::proofs::CodeLaws::low_word))]
fn low_word(word: u64) -> bool
    ensures { result ≡ all_low (be 8 word) }
{
    word & 0x8080808080808080 == 0
}

// The bits that any of these words has.
#[inline(never)]
fn joined(words: &[u64]) -> u64
    ensures { result ≡ fold bit_or 0 words.now }
{
    words.iter().fold(0, |all, word| all | *word)
}

// Whether all bytes of these words are below 128. Many words are joined before the test, with no way out of that loop, so that the
// compiler takes several at a time; most strings have few.
#[tactic(auto, using(crate::proofs::CodeLaws::low_joined))]
fn low_words(words: &[u64]) -> bool
    ensures { result ≡ words_low words.now }
{
    if words.len() >= 8 {
        low_word(joined(words))
    } else {
        words.iter().all(|word| low_word(*word))
    }
}

// The codes that all data words have room for.
const MOST_CODES: usize = 8 * MOST_WORDS;

// The data words that the codes of a string of so many characters take, where `base` data words came before it: a run of bits, of
// eight each, from `first` on.
#[tactic(auto, using(crate::proofs::CodeLaws::judging_text))]
pub fn string_row(table: Framed<'_>, count: usize, first: usize, base: usize) -> Option<usize>
    requires { base ≤ words_of table.words.now }
    ensures { TextJudged table.entry.words.now base count first result }
{
    if count > MOST_CODES {
        return None;
    }
    if !bits_stand(table, 8 * count, first, base) {
        return None;
    }
    let used = words_for(8 * count);
    let from = table.data_start() + base;
    if !low_words(&table.words[from..from + used]) {
        return None;
    }
    Some(used)
}
