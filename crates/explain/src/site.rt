// The evidence of the object at fault, by its head: what it is refused for by itself, or for its elements.
ghost use Rattle.std.specs.Prelude.{◌≡◌, ◌≢◌, ℕ, ◌+◌, ◌≤◌, ◌<◌, MatchOption, EachIndex, slice_index, length, drop};
ghost use Rattle.format.specs.Refusals.{byte_limit};
ghost use Rattle.format.specs.Refused.{meant};
ghost use Rattle.format.specs.Objects.{leading, stop};
ghost use Rattle.wire.specs.Heads.{wrap_of};
ghost use Rattle.format.specs.Choice.{pick};
ghost use Rattle.explain.specs.Reasons.{kinds_apart, element_at, closed_wrong, in_place, counted};
ghost use Rattle.explain.specs.Told.{word_asked, elements_of, head_in, said_in, counting_in, stopped_in, evidence_in, kinds_told, element_told, kind_by, leads_edt, FirstKind, SizeIn, behind_of};

use crate::elements::places_in;
use crate::evidence::Evidence;
use crate::one_byte::PADDING;
use crate::stretch::Stretch;
use format::Class;
use format::fault::{Fault, Refusal};
use format::kinds::Kind;
use format::tree::is;
use scan::scan_run;
use wire::head::{Head, Wrap, head_of};
use wire::integer::{NoInteger, leading_of};
use wire::size::extent_of;

// Where the first byte stands that is no padding.
fn unpadded(c: &[u8]) -> Option<usize>
    ensures { MatchOption result (EachIndex c.now (λ k. slice_index c.now k ≡ 0xff)) (λ i. (i < length c.now) × (slice_index c.now i ≢ 0xff) × ((k : ℕ) → k < i → slice_index c.now k ≡ 0xff)) }
{
    c.iter().position(|b| *b != PADDING)
}

// What stands in the place of a length or count in the contents c, which start at a.
fn in_place(c: &[u8], a: usize) -> Evidence
    requires { a + length c.now ≤ byte_limit }
    ensures { result ≡ in_place c.now a }
{
    match unpadded(c) {
        Some(i) => Evidence::Byte(c[i], a + i),
        None => Evidence::Absent,
    }
}

fn counted_in(c: &[u8], a: usize) -> Evidence
    requires { a + length c.now ≤ byte_limit }
    ensures { result ≡ counted c.now a (leading c.now) }
{
    match leading_of(c) {
        Err(NoInteger::Absent) => in_place(c, a),
        Err(NoInteger::Cut(_, _)) => Evidence::End(a + c.len()),
        Ok(n) => Evidence::Number(n.value),
    }
}

// The length or count of the object that a stretch begins with, by its size.
fn counting_at(object: Stretch) -> Evidence
    requires { (object.from < object.end) × SizeIn (behind_of object) }
    ensures { result ≡ counting_in object.entry }
{
    match extent_of(object.behind()) {
        Err(_) => Evidence::Nothing,
        Ok(e) => {
            let from = object.from + 1 + e.start;
            counted_in(&object.message[from..from + e.size], from)
        }
    }
}

// An object that is refused by its head.
fn stopped_at(object: Stretch, f: Fault) -> Evidence
    requires { (object.from < object.end) × (head_in object ≡ stop (meant f)) }
    ensures { result ≡ stopped_in object.entry (meant f) }
{
    if f.place > 0 {
        return counting_at(object);
    }
    let b = object.first();
    match f.refusal {
        Refusal::PastInput | Refusal::PastEnclosing => Evidence::End(object.end),
        Refusal::Unassigned => Evidence::Byte(b, object.from),
        Refusal::TooDeep => Evidence::Nothing,
        Refusal::BadBits if is(Class::Lbitstr, b) => counting_at(object),
        Refusal::BadBits => Evidence::Byte(0, object.from + 1),
        _ if object.depth == 0 => Evidence::Byte(b, object.from),
        _ => counting_at(object),
    }
}

// 8: the first element, and the earliest of another kind.
fn kinds_apart(first: Option<usize>, other: Option<usize>) -> Evidence
    ensures { result ≡ kinds_told first other }
{
    match (first, other) {
        (Some(p), Some(q)) => Evidence::Kinds(p, q),
        _ => Evidence::Nothing,
    }
}

// 9: an element that is wrong, or is not there.
fn element_told(which: usize, place: Option<usize>) -> Evidence
    ensures { result ≡ element_told which place }
{
    match place {
        Some(p) => Evidence::Element(which, p),
        None => Evidence::NoElement(which),
    }
}

// The kind of an element by what it is as an EDT's first: strings are STRUCs.
fn kind_by(lead: Option<Kind>) -> Option<Kind>
    ensures { result ≡ kind_by lead }
{
    match lead {
        Some(Kind::String) => Some(Kind::Struc),
        _ => lead,
    }
}

fn leads_edt(lead: Option<Kind>) -> bool
    ensures { result ≡ leads_edt lead }
{
    matches!(lead, Some(Kind::Int | Kind::String))
}

// 8: a USTRUC's contents; `lead` tells the first element.
fn ustruc_at(contents: Stretch, lead: Option<Kind>) -> Evidence
    requires { FirstKind (elements_of contents) (word_asked (kind_by lead)) }
    ensures { result ≡ kinds_apart (elements_of contents.entry) }
{
    let p = places_in(contents, kind_by(lead));
    kinds_apart(p.first, p.other)
}

// 9: an EDT's, likewise.
fn edt_at(contents: Stretch, lead: Option<Kind>) -> Evidence
    ensures { result ≡ pick (leads_edt lead) (element_at 2 (drop 1 (elements_of contents.entry))) (element_at 1 (elements_of contents.entry)) }
{
    let p = places_in(contents, None);
    if leads_edt(lead) {
        element_told(2, p.second)
    } else {
        element_told(1, p.first)
    }
}

// A container's contents, all right in themselves.
fn closed_at(contents: Stretch, w: Wrap) -> Evidence
    requires { contents.from ≤ contents.end }
    ensures { result ≡ closed_wrong (wrap_of w) (elements_of contents.entry) (said_in contents.entry) }
{
    let Stretch {
        message,
        depth,
        from,
        end,
    } = contents;
    match scan_run(depth, &message[from..end]) {
        Err(_) => Evidence::Nothing,
        Ok(sum) => match w {
            Wrap::Ustruc => ustruc_at(contents, sum.first.kind()),
            Wrap::Edt => edt_at(contents, sum.first.kind()),
            Wrap::Struc | Wrap::Repeat(_) => Evidence::Nothing,
        },
    }
}

// The object at fault, which a stretch begins with.
pub fn evidence_at(object: Stretch) -> Evidence
    requires { object.from < object.end }
    ensures { result ≡ evidence_in object.entry }
{
    match head_of(object.depth, object.first(), object.behind()) {
        Err(f) => stopped_at(object, f),
        Ok(head) => match head {
            Head::Open(w, e) => closed_at(object.inside(e), w),
            _ => Evidence::Nothing,
        },
    }
}
