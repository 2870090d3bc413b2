// Checks a message and measures it. Nothing is laid out, and no table is touched.
#![tactic(auto)]

ghost use Rattle.std.specs.Prelude.{◌≡◌, ◌+◌, ◌≤◌, ◌<◌, length};
ghost use Rattle.format.specs.Messages.{reads, outcome};
ghost use Rattle.format.specs.Runs.{object_at};
ghost use Rattle.scan.specs.Answer.{answer, answer_object, told};
ghost use Rattle.scan.specs.Shorts.{short_object, as_object};
ghost use Rattle.format.specs.Refusals.{byte_limit, depth_limit};

mod closing;
mod stretch;
pub mod summary;

use closing::closed;
use format::Class;
use format::fault::Fault;
use format::kinds::Kind;
use format::tree::{is, is_non_atomic};
use stretch::{all_chars, leap_from};
use summary::Summary;
use wire::bits::sbits_of;
use wire::head::{Head, head_of};
use wire::integer::following_of;
use wire::short::{short_size, wrap_by};

// A run of objects with `depth` containers around it. Recursion goes only into containers, so that the stack stays shallow. Of the
// non-atomic objects those with a size of one byte, as most have, are tried first, of the others stretches; what is neither goes
// by its head. Depth and bytes go side by side, as in wire::head.
#[cycle(scan_object_scan_run_scan_short)]
pub fn scan_run(depth: usize, s: &[u8]) -> Result<Summary, Fault>
    requires { (length s.now ≤ byte_limit) × (depth ≤ depth_limit) }
    ensures { told result ≡ answer (reads depth s.now) }
{
    let mut i: usize = 0;
    let mut sum = Summary::default();
    // How far a turn goes depends on the bytes that it meets.
    while i < s.len() {
        let b = s[i];
        let behind = i + 1;
        if is_non_atomic(b) {
            if let Some(n) = short_size(depth, b, &s[behind..]) {
                let end = i + 2 + n;
                let one = scan_short(depth, b, &s[i + 2..end]).map_err(|f| f.further(i))?;
                sum = sum + one;
                i = end;
                continue;
            }
        } else if let Some(leap) = leap_from(s, i) {
            sum = sum + leap.sum;
            i = leap.upto;
            continue;
        }
        let (one, past) = scan_object(depth, b, &s[behind..]).map_err(|f| f.further(i))?;
        sum = sum + one;
        i = behind + past;
    }
    Ok(sum)
}

// The STRUC, USTRUC, EDT or STRING of the type-byte b whose contents are c and whose size is one byte. The place of a refusal is
// from the type-byte on. A container of CHARs alone is a string, and refused as it would be for one CHAR.
#[cycle(scan_object_scan_run_scan_short)]
fn scan_short(depth: usize, b: u8, c: &[u8]) -> Result<Summary, Fault>
    requires { (0 < length c.now) × (length c.now ≤ 127) × (depth < depth_limit) }
    ensures { as_object (1 + length c.now) (told result) ≡ answer_object (short_object depth b c.now) }
{
    let n = c.len();
    if is(Class::String, b) {
        return Ok(Summary::text(n));
    }
    if all_chars(c) {
        closed(wrap_by(b), Summary::one(Kind::Char, 1, 0))?;
        return Ok(Summary::text(n));
    }
    let sum = scan_run(depth + 1, c).map_err(|f| f.further(2))?;
    closed(wrap_by(b), sum)
}

// The object whose type-byte is b; s are the bytes behind it, up to the end of the enclosing object or of the input. What its items
// come to, and its bytes past the type-byte; the place of a refusal is from the type-byte on. An SBITSTR is tried first: its head
// would be written to memory and read again.
#[cycle(scan_object_scan_run_scan_short)]
fn scan_object(depth: usize, b: u8, s: &[u8]) -> Result<(Summary, usize), Fault>
    requires { (length s.now ≤ byte_limit) × (depth ≤ depth_limit) }
    ensures { told result ≡ answer_object (object_at depth b s.now) }
{
    if let Some(n) = sbits_of(b, s) {
        return Ok((Summary::bits(n), following_of(b)));
    }
    match head_of(depth, b, s)? {
        Head::Gap => Ok((Summary::default(), 0)),
        Head::Row(kind, _, past) => Ok((Summary::one(kind, 1, 0), past)),
        Head::Sbits(n, _, past) => Ok((Summary::bits(n), past)),
        Head::Lbits(_, n, past) => Ok((Summary::bits(n), past)),
        Head::Text(e) => Ok((Summary::text(e.size), e.end())),
        Head::Open(w, e) => {
            let c = e.contents(s);
            let sum = scan_run(depth + 1, c).map_err(|f| f.further(1 + e.start))?;
            Ok((closed(w, sum)?, e.end()))
        }
    }
}

// A whole message: a run with no container around it.
pub fn scan_message(message: &[u8]) -> Result<Summary, Fault>
    requires { length message.now ≤ byte_limit }
    ensures { told result ≡ answer (outcome message.now) }
{
    scan_run(0, message)
}
