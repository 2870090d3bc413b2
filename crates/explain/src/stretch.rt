// A stretch of a message, by its place in the whole, with an object or a container's contents.
ghost use Rattle.std.specs.Prelude.{◌≡◌, ◌+◌, ◌≤◌, ◌<◌, slice_index, length};
ghost use Rattle.format.specs.Refusals.{byte_limit, depth_limit};
ghost use Rattle.explain.specs.Reasons.{between};

use wire::size::Extent;

// The bytes of a message from `from` up to `end`, with `depth` containers around them.
#[derive(Clone, Copy)]
pub struct Stretch<'a> {
    pub message: &'a [u8],
    pub depth: usize,
    pub from: usize,
    pub end: usize,
    pub ghost short: { length message.now ≤ byte_limit },
    pub ghost within: { end ≤ length message.now },
    pub ghost shallow: { depth ≤ depth_limit },
}

impl<'a> Stretch<'a> {
    // The type-byte of the object that it begins with.
    pub fn first(self) -> u8
        requires { self.from < self.end }
        ensures { result ≡ slice_index self.entry.message.now self.entry.from }
    {
        self.message[self.from]
    }

    // The bytes behind that type-byte.
    pub fn behind(self) -> &'a [u8]
        requires { self.from < self.end }
        ensures { result.now ≡ between self.entry.message.now (self.entry.from + 1) self.entry.end }
    {
        &self.message[self.from + 1..self.end]
    }

    // The contents of the container that it begins with.
    pub fn inside(self, e: Extent) -> Stretch<'a>
        requires { (self.from + 1 + e.start + e.size ≤ self.end) × (self.depth < depth_limit) }
        ensures message { result.message.now ≡ self.entry.message.now }
        ensures depth { result.depth ≡ self.entry.depth + 1 }
        ensures from { result.from ≡ self.entry.from + 1 + e.start }
        ensures end { result.end ≡ self.entry.from + 1 + e.start + e.size }
    {
        let from = self.from + 1 + e.start;
        Stretch {
            message: self.message,
            depth: self.depth + 1,
            from,
            end: from + e.size,
        }
    }
}
