// The part that bytes begin with: an outermost object by its own extent, or the rest; and how it is met as a message by itself.
ghost use Rattle.std.specs.Prelude.{◌≡◌, ◌+◌, ◌≤◌, ◌<◌, IfSome, length, drop};
ghost use Rattle.std.proofs.Math.Option.{some};
ghost use Rattle.format.specs.Refusals.{byte_limit};
ghost use Rattle.format.specs.Objects as O;
ghost use Rattle.format.specs.Classes.{class_of};
ghost use Rattle.format.specs.declared.Class.TheVariants.{Reserved};
ghost use Rattle.format.specs.Messages.{outcome};
ghost use Rattle.salvage.specs.Mending.{own_extent, lying};
ghost use Rattle.salvage.specs.Told.{bytes_told, met_told, met_of, PartsFrom};

use format::Class;
use format::fault::Refusal;
use format::limits::{MOST_ROWS, too_many};
use format::tree::class_of;
use scan::scan_message;
use wire::integer::following_of;
use wire::size::extent_of;
use wire::span::until;

// The rows and data words of what bytes say.
#[derive(Clone, Copy)]
pub struct Amount {
    pub rows: usize,
    pub words: usize,
}

// A part. Kept: an object, or several, sound alone: their bytes, and what they say. Replaced: an object that is refused alone: its bytes,
// and why. Dropped: the rest, and why it is refused alone.
#[derive(Clone, Copy)]
pub enum Part {
    Kept(usize, Amount),
    Replaced(usize, Refusal),
    Dropped(Refusal),
}

// The bytes of an object that has k behind its type-byte; none where the bytes s, which stand there, are fewer.
fn fixed_bytes(s: &[u8], k: usize) -> Option<usize>
    requires { k ≤ 8 }
    ensures { result ≡ bytes_told (lying s.now (some (O.size 0 k))) }
{
    if s.len() < k { None } else { Some(1 + k) }
}

// The bytes of an object with a size; none where it passes the end.
fn sized_bytes(s: &[u8]) -> Option<usize>
    requires { length s.now ≤ byte_limit }
    ensures { result ≡ bytes_told (lying s.now (some (O.size_of s.now))) }
{
    extent_of(s).ok().map(|e| 1 + e.end())
}

// The bytes of an object whose type-byte is reserved or unassigned: C7 to DF have a size like every non-atomic object, the others no
// known extent.
#[tactic(auto, using(crate::proofs::ExtentLaws::reserved_low, crate::proofs::ExtentLaws::reserved_high, crate::proofs::ExtentLaws::unassigned_told))]
fn reserved_bytes(b: u8, s: &[u8]) -> Option<usize>
    requires { (length s.now ≤ byte_limit) × (class_of b ≡ Reserved) }
    ensures { result ≡ bytes_told (lying s.now (own_extent b s.now)) }
{
    match b {
        0xc7..=0xdf => sized_bytes(s),
        _ => None,
    }
}

// The bytes of the outermost object whose type-byte is b, that among them; s are those behind it, up to the end of the input. None where
// its extent is not known or passes the end.
fn bytes_of(b: u8, s: &[u8]) -> Option<usize>
    requires { length s.now ≤ byte_limit }
    ensures { result ≡ bytes_told (lying s.now (own_extent b s.now)) }
{
    match class_of(b) {
        Class::Char7 | Class::Sinteger | Class::Xtra | Class::Bool | Class::Empty => Some(1),
        Class::Padding => Some(1),
        Class::Linteger | Class::Sbitstr => fixed_bytes(s, following_of(b)),
        Class::Lbitstr
        | Class::String
        | Class::Struc
        | Class::Ustruc
        | Class::Edt
        | Class::Repeat => sized_bytes(s),
        Class::Reserved => reserved_bytes(b, s),
    }
}

// Bytes as a message by themselves, given ample table: what they say comes to, or why they are refused. The scan
// measures them, so that no table is needed.
pub fn alone(o: &[u8]) -> Result<Amount, Refusal>
    requires { length o.now ≤ byte_limit }
    ensures { met_told result ≡ met_of (outcome o.now) }
{
    let sum = scan_message(o).map_err(|f| f.refusal)?;
    if too_many(sum.rows, sum.words) {
        return Err(Refusal::TooMany);
    }
    Ok(Amount {
        rows: sum.rows,
        words: sum.words,
    })
}

// The part at p, by itself. A rest is never sound.
fn one_part(input: &[u8], p: usize) -> Part
    requires { (length input.now ≤ byte_limit) × (p < length input.now) }
    ensures { PartsFrom (drop p input.now) result }
{
    let behind = p + 1;
    match bytes_of(input[p], &input[behind..]) {
        Some(n) => {
            let end = p + n;
            match alone(&input[p..end]) {
                Ok(said) => Part::Kept(n, said),
                Err(why) => Part::Replaced(n, why),
            }
        }
        None => match alone(&input[p..]) {
            Ok(_) => unreachable!(),
            Err(why) => Part::Dropped(why),
        },
    }
}

// How far from p on bytes are looked at for objects of one byte: no further than they could be rows.
fn window(len: usize, p: usize) -> usize
    requires { p ≤ len }
    ensures { (p ≤ result) × (result ≤ len) }
{
    p + (len - p).min(MOST_ROWS)
}

// How many objects of one byte, of 00 to BF or of F8 to FF, stand from p on, where there are several. That they are sound is not told
// by this.
fn singles(input: &[u8], p: usize) -> Option<usize>
    requires { p < length input.now }
    ensures { IfSome result (λ n. (1 < n) × (p + n ≤ length input.now)) }
{
    let end = window(input.len(), p);
    let many = match input[p] {
        0..=0xbf => until(&input[p..end], 0, 0, 0xbf),
        0xf8..=0xff => until(&input[p..end], 0, 0xf8, 0xff),
        _ => return None,
    };
    (many > 1).then_some(many)
}

// The part at p; or many objects of one byte together, where these are sound as a message by themselves.
pub fn part_at(input: &[u8], p: usize) -> Part
    requires { (length input.now ≤ byte_limit) × (p < length input.now) }
    ensures { PartsFrom (drop p input.now) result }
{
    if let Some(many) = singles(input, p) {
        let upto = p + many;
        if let Ok(said) = alone(&input[p..upto]) {
            return Part::Kept(many, said);
        }
    }
    one_part(input, p)
}
