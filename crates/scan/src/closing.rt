// How a container closes over what its contents come to.
ghost use Rattle.std.specs.Prelude.{◌≡◌};
ghost use Rattle.scan.specs.Answer.{ustruc_fault, edt_fault, fault_of, wrapped_of, closed_of, told};

use super::summary::{Met, Summary};
use format::fault::{Fault, Refusal};
use format::kinds::Kind;
use wire::head::Wrap;

// The elements of a USTRUC are of one kind.
fn ustruc_fault(a: Summary) -> Result<(), Refusal>
    ensures { result ≡ ustruc_fault a }
{
    if a.mix == Met::SEVERAL {
        return Err(Refusal::SeveralKinds);
    }
    Ok(())
}

// The first element of an EDT is an INT or a string and its second an INT.
fn edt_fault(a: Summary) -> Result<(), Refusal>
    ensures { result ≡ edt_fault a }
{
    if (a.first.is(Kind::Int) || a.first.is(Kind::String)) && a.second.is(Kind::Int) {
        return Ok(());
    }
    Err(Refusal::BadEdt)
}

// Why a container is refused for the kinds of its elements.
fn fault_of(w: Wrap, a: Summary) -> Result<(), Refusal>
    ensures { result ≡ fault_of w a }
{
    match w {
        Wrap::Ustruc => ustruc_fault(a),
        Wrap::Edt => edt_fault(a),
        Wrap::Struc | Wrap::Repeat(_) => Ok(()),
    }
}

// What a container comes to that has no fault.
fn wrapped(w: Wrap, a: Summary) -> Summary
    ensures { result ≡ wrapped_of w a }
{
    match w {
        Wrap::Repeat(k) => a.times(k),
        Wrap::Edt => a.edt(),
        Wrap::Ustruc | Wrap::Struc => a.struc(),
    }
}

// What a container comes to, or its refusal, at its type-byte.
pub fn closed(w: Wrap, a: Summary) -> Result<Summary, Fault>
    ensures { told result ≡ closed_of w a }
{
    fault_of(w, a).map_err(Fault::here)?;
    Ok(wrapped(w, a))
}
