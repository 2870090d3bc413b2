// The head of an object: everything that it says by itself, its contents not yet read. Its type-byte is b, and s are the bytes
// behind it, up to the end of the enclosing object or of the input. `depth` containers stand around it. These are three arguments, and
// that the bytes are within the limit is a clause, as the meaning has them: of a struct every reader would ask for the bytes again, and
// build another for each part of them.
ghost use Rattle.std.specs.Prelude.{◌≡◌, ◌+◌, ◌*◌, ◌%◌, ◌^◌, ◌≤◌, ◌<◌, ◌-◌, length};
ghost use Rattle.format.specs.declared.Class.TheVariants.{Linteger, Sbitstr, Lbitstr, String, Repeat};
ghost use Rattle.format.specs.Refusals as R;
ghost use Rattle.format.specs.Refused.{meant};
ghost use Rattle.format.specs.Objects.{past_end, head_by, head_of, group_head};
ghost use Rattle.wire.specs.Heads.{FollowingIs, SizedIs, CountedIs, ContainedIs, HeadIs, wrap_of};
ghost use Rattle.format.specs.Refusals.{byte_limit};

use super::integer::{NoInteger, following_of, integer_of, leading_of, number};
use super::size::{Extent, extent_of};
use format::Class;
use format::fault::{Fault, Refusal};
use format::kinds::Kind;
use format::limits::DEEPEST;
use format::signed::word_of;
use format::tree::{class_of, ones_of};

// How a container closes over its contents.
#[derive(Clone, Copy, Debug, PartialEq, Eq)]
pub enum Wrap {
    Struc,
    Ustruc,
    Edt,
    Repeat(usize),
}

// Gap: padding.
// Row: an item with no data words and no elements, as its row's kind and last word.
// Sbits: a BITS of at most 63 bits, how many, and its data word.
// Lbits: a BITS that is left-adjusted in bytes: where past the type-byte they start, and how many bits.
// Text: a string, and its characters.
// Open: a container: how it closes, and its contents.
// The last number of Row, Sbits and Lbits is that of the object's bytes past the type-byte.
#[derive(Clone, Copy, Debug, PartialEq, Eq)]
pub enum Head {
    Gap,
    Row(Kind, u64, usize),
    Sbits(usize, u64, usize),
    Lbits(usize, usize, usize),
    Text(Extent),
    Open(Wrap, Extent),
}

// A length or count, and the bytes up to its end.
#[derive(Clone, Copy, Debug, PartialEq, Eq)]
struct Count {
    number: usize,
    bytes: usize,
}

// The refusal of an object for which k bytes are missing to the end that it passes.
fn past_end(depth: usize, k: usize) -> Fault
    ensures { meant result ≡ R.wants (past_end depth) k }
{
    if depth == 0 {
        Fault::wants(Refusal::PastInput, k)
    } else {
        Fault::wants(Refusal::PastEnclosing, k)
    }
}

// How many data bytes an LINTEGER or an SBITSTR has, which are all there.
fn following(depth: usize, b: u8, s: &[u8]) -> Result<usize, Fault>
    ensures { FollowingIs depth b s.now result }
{
    let k = following_of(b);
    if s.len() < k {
        return Err(past_end(depth, k - s.len()));
    }
    Ok(k)
}

fn linteger(depth: usize, b: u8, s: &[u8]) -> Result<Head, Fault>
    ensures { HeadIs s.now result (head_by Linteger depth b s.now) }
{
    let k = following(depth, b, s)?;
    Ok(Head::Row(Kind::Int, word_of(integer_of(s, k)), k))
}

// The bits behind the marker of a number of n bits and a marker above them, left-adjusted in a word.
fn unmarked(v: u64, n: usize) -> u64
    requires { n ≤ 63 }
    ensures { (n ≡ 0 → result ≡ 0) × (0 < n → result ≡ v * 2 ^ (64 - n) % 2 ^ 64) }
{
    if n == 0 { 0 } else { v << (64 - n) }
}

// The zeros before the marker are the ones of the complement.
fn sbitstr(depth: usize, b: u8, s: &[u8]) -> Result<Head, Fault>
    ensures { HeadIs s.now result (head_by Sbitstr depth b s.now) }
{
    let k = following(depth, b, s)?;
    let first = s[0];
    if first == 0 {
        return Err(Fault::here(Refusal::BadBits));
    }
    let zeros = ones_of(!first) as usize;
    let n = 8 * k - 1 - zeros;
    Ok(Head::Sbits(n, unmarked(number(s, k), n), k))
}

// The length or count at the front of the contents c, which start at h; `why` is what an object without one is refused for.
fn count_of(why: Refusal, h: usize, c: &[u8]) -> Result<Count, Fault>
    requires { h + length c.now ≤ byte_limit }
    ensures { CountedIs why h c.now result }
{
    match leading_of(c) {
        Err(NoInteger::Absent) => Err(Fault::here(why)),
        Err(NoInteger::Cut(p, k)) => {
            Err(Fault::wants(Refusal::PastEnclosing, k).further(1 + h + p))
        }
        Ok(n) => {
            let negative = n.value < 0;
            if negative {
                return Err(Fault::here(why));
            }
            Ok(Count {
                number: n.value as usize,
                bytes: n.bytes,
            })
        }
    }
}

// Contents, whatever stands around them.
fn sized(depth: usize, s: &[u8]) -> Result<Extent, Fault>
    requires { length s.now ≤ byte_limit }
    ensures { SizedIs depth s.now result }
{
    extent_of(s).map_err(|k| past_end(depth, k))
}

fn lbitstr(depth: usize, s: &[u8]) -> Result<Head, Fault>
    requires { length s.now ≤ byte_limit }
    ensures { HeadIs s.now result (head_by Lbitstr depth 0xc1 s.now) }
{
    let e = sized(depth, s)?;
    let n = count_of(Refusal::BadBits, e.start, e.contents(s))?;
    if e.size - n.bytes != n.number.div_ceil(8) {
        return Err(Fault::here(Refusal::BadBits));
    }
    Ok(Head::Lbits(e.start + n.bytes, n.number, e.end()))
}

// The contents of a container.
fn contents_of(depth: usize, s: &[u8]) -> Result<Extent, Fault>
    requires { length s.now ≤ byte_limit }
    ensures { ContainedIs depth s.now result }
{
    if depth >= DEEPEST {
        return Err(Fault::here(Refusal::TooDeep));
    }
    sized(depth, s)
}

fn string(depth: usize, s: &[u8]) -> Result<Head, Fault>
    requires { length s.now ≤ byte_limit }
    ensures { HeadIs s.now result (head_by String depth 0xc6 s.now) }
{
    Ok(Head::Text(contents_of(depth, s)?))
}

fn group(w: Wrap, depth: usize, s: &[u8]) -> Result<Head, Fault>
    requires { length s.now ≤ byte_limit }
    ensures { HeadIs s.now result (group_head (wrap_of w) depth s.now) }
{
    Ok(Head::Open(w, contents_of(depth, s)?))
}

fn repeat(depth: usize, s: &[u8]) -> Result<Head, Fault>
    requires { length s.now ≤ byte_limit }
    ensures { HeadIs s.now result (head_by Repeat depth 0xc4 s.now) }
{
    if depth == 0 {
        return Err(Fault::here(Refusal::BadRepeat));
    }
    let e = contents_of(depth, s)?;
    let n = count_of(Refusal::BadRepeat, e.start, e.contents(s))?;
    let pattern = Extent {
        start: e.start + n.bytes,
        size: e.size - n.bytes,
    };
    Ok(Head::Open(Wrap::Repeat(n.number), pattern))
}

pub fn head_of(depth: usize, b: u8, s: &[u8]) -> Result<Head, Fault>
    requires { length s.now ≤ byte_limit }
    ensures { HeadIs s.now result (head_of depth b s.now) }
{
    match class_of(b) {
        Class::Char7 => Ok(Head::Row(Kind::Char, u64::from(b), 0)),
        Class::Sinteger => Ok(Head::Row(Kind::Int, u64::from(b % 64), 0)),
        Class::Linteger => linteger(depth, b, s),
        Class::Sbitstr => sbitstr(depth, b, s),
        Class::Lbitstr => lbitstr(depth, s),
        Class::String => string(depth, s),
        Class::Struc => group(Wrap::Struc, depth, s),
        Class::Ustruc => group(Wrap::Ustruc, depth, s),
        Class::Edt => group(Wrap::Edt, depth, s),
        Class::Repeat => repeat(depth, s),
        Class::Xtra => Ok(Head::Row(Kind::Xtra, u64::from(b % 4), 0)),
        Class::Bool => Ok(Head::Row(Kind::Bool, u64::from(b % 2), 0)),
        Class::Empty => Ok(Head::Row(Kind::Empty, 0, 0)),
        Class::Padding => Ok(Head::Gap),
        Class::Reserved => Err(Fault::here(Refusal::Unassigned)),
    }
}
