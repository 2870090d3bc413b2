// The input, read to its end or until the lent bytes are full.
ghost use Rattle.std.specs.Prelude.{◌≡◌, ◌≤◌, ◌+◌, ◌<◌, ◌^◌, length, IfOk};
ghost use Rattle.sheetlist.specs.Inputs.{stepped};

use std::io;
use std::io::Read;

// What a read into `lent` answered, `done` bytes having come before it: how many have come by then, or none where the input is at its
// end. Only 0 bytes are the end; an error is a failure, and what came before is then no input.
fn step_of(done: usize, got: io::Result<usize>, lent: &[u8]) -> io::Result<Option<usize>>
    requires { done + length lent.now < 2 ^ 64 }
    ensures { result ≡ stepped done got (length lent.now) }
{
    let more = got?.min(lent.len());
    Ok(if more == 0 { None } else { Some(done + more) })
}

// Reads until a read answers that the input is at its end or fails, or the lent bytes are full; so many bytes lie at their start.
pub fn read_input(from: &mut impl Read, buf: &mut [u8]) -> io::Result<usize>
    ensures { IfOk result (λ n. n ≤ length buf.new) }
{
    // A `while`, since each read tells how far it came.
    let mut done = 0;
    while done < buf.len() {
        let got = from.read(&mut buf[done..]);
        match step_of(done, got, &buf[done..])? {
            Some(upto) => done = upto,
            None => break,
        }
    }
    Ok(done)
}
