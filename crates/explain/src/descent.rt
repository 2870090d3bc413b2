// From the start of a refused message down to the object at fault, a head at a time.
ghost use Rattle.std.specs.Prelude.{◌≡◌, ◌≤◌, length};
ghost use Rattle.format.specs.Refusals.{byte_limit};
ghost use Rattle.explain.specs.Told.{StepIs, RefusedAt, Descended};

use crate::one_byte::singles_end;
use crate::stretch::Stretch;
use crate::trail::Trail;
use format::Class;
use format::fault::Fault;
use format::tree::is;
use wire::head::{Head, head_of};
use wire::size::Extent;

// How far an object reaches: its bytes past the type-byte; or a container, and its contents.
#[derive(Clone, Copy)]
pub enum Step {
    Over(usize),
    Into(Extent),
}

fn step_of(depth: usize, b: u8, s: &[u8]) -> Result<Step, Fault>
    requires { length s.now ≤ byte_limit }
    ensures { StepIs depth b s.now result }
{
    let head = head_of(depth, b, s)?;
    match head {
        Head::Gap => Ok(Step::Over(0)),
        Head::Row(_, _, past) | Head::Sbits(_, _, past) | Head::Lbits(_, _, past) => Ok(Step::Over(
            past,
        )),
        Head::Text(e) => Ok(Step::Over(e.end())),
        Head::Open(_, e) => Ok(Step::Into(e)),
    }
}

// A message that is refused at `place`. The object there is at fault; or it is a length or count, and the LBITSTR or REPEAT around it is
// where the descent ends: from its type-byte up to the end of the bytes that it may have. The trail tells then what is open around the
// fault; a REPEAT is open around its count.
pub fn descend<'a>(m: &'a [u8], place: usize, trail: &mut Trail) -> Stretch<'a>
    requires m_len_bound { length m.now ≤ byte_limit }
    requires refused_at { RefusedAt m.now place }
    requires nothing_open { trail.old.len ≡ 0 }
    ensures { Descended m.now result trail.new }
{
    let mut at = 0;
    let mut end = m.len();
    // How far a turn goes depends on the object that it meets.
    while at < place {
        if let Some(past) = singles_end(m, at, end) {
            at = past;
            continue;
        }
        let object = Stretch {
            message: m,
            depth: trail.len(),
            from: at,
            end,
        };
        let Ok(step) = step_of(object.depth, object.first(), object.behind()) else {
            if is(Class::Repeat, object.first()) {
                trail.push(at);
            }
            return object;
        };
        match step {
            Step::Over(past) => {
                at += 1 + past;
            }
            Step::Into(e) => {
                let contents = object.inside(e);
                if place < contents.end {
                    trail.push(at);
                    at = contents.from;
                    end = contents.end;
                } else {
                    at = contents.end;
                }
            }
        }
    }
    Stretch {
        message: m,
        depth: trail.len(),
        from: at,
        end,
    }
}
