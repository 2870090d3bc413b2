// Size fields: how many contents bytes an object has, and where they start.
ghost use Rattle.std.specs.Prelude.{◌≡◌, ◌+◌, ◌≤◌, ◌<◌, ◌^◌, min, length, take, drop};
ghost use Rattle.format.specs.Numbers.{val};
ghost use Rattle.format.specs.Objects.{contents};
ghost use Rattle.wire.specs.Extents.{ExtentIs, extent_at, long_count};
ghost use Rattle.format.specs.Refusals.{byte_limit};

// Where past the type-byte the contents of an object start, and how many bytes they are.
#[derive(Clone, Copy, Debug, PartialEq, Eq)]
pub struct Extent {
    pub start: usize,
    pub size: usize,
}

impl Extent {
    // Where past the type-byte they end.
    pub fn end(self) -> usize
        requires { self.start + self.size < 2 ^ 64 }
        ensures { result ≡ self.start + self.size }
    {
        self.start + self.size
    }

    // They themselves, among the bytes s behind the type-byte.
    pub fn contents(self, s: &[u8]) -> &[u8]
        requires { self.start + self.size ≤ length s.now }
        ensures { result.now ≡ contents s.now self.start self.size }
    {
        &s[self.start..self.start + self.size]
    }
}

// Sizes are kept so far and no further, twice what a message may have: from this size on 65,536 bytes or more are missing in any.
const SIZE_KEPT: usize = 131072;

fn capped(n: usize) -> usize
    ensures { result ≡ min n 131072 }
{
    n.min(SIZE_KEPT)
}

// What the k size bytes behind the first one make, or 131,072 where they make more.
fn long_size(s: &[u8], k: usize) -> usize
    requires { 1 + k ≤ length s.now }
    ensures { result ≡ min (val (take k (drop 1 s.now))) 131072 }
{
    let mut n = 0;
    for b in &s[1..1 + k] {
        n = capped(n * 256 + usize::from(*b));
    }
    n
}

// The extent where the size has h bytes, all there, and is n; or how many contents bytes are missing.
fn extent_at(s: &[u8], h: usize, n: usize) -> Result<Extent, usize>
    requires { h ≤ length s.now }
    ensures { result ≡ extent_at (length s.now) h n }
{
    let there = s.len() - h;
    if there < n {
        return Err(n - there);
    }
    Ok(Extent { start: h, size: n })
}

// The extent of an object with a size field, or how many size bytes or contents bytes are missing; s are the bytes behind its
// type-byte.
pub fn extent_of(s: &[u8]) -> Result<Extent, usize>
    requires { length s.now ≤ byte_limit }
    ensures { ExtentIs s.now result }
{
    let [b, ..] = *s else {
        return Err(1);
    };
    if b == 0 {
        return extent_at(s, 1, 128);
    }
    if b < 0x80 {
        return extent_at(s, 1, usize::from(b));
    }
    let k = long_count(b);
    let there = s.len() - 1;
    if there < k {
        return Err(k - there);
    }
    let n = long_size(s, k);
    extent_at(s, 1 + k, n)
}

// How many size bytes follow a first one from 80 up.
fn long_count(b: u8) -> usize
    requires { 128 ≤ b }
    ensures { result ≡ long_count b }
{
    if b == 0x80 {
        return 128;
    }
    usize::from(b) - 0x80
}
