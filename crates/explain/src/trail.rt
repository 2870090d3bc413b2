// The containers that are open.
ghost use Rattle.std.specs.Prelude.{◌≡◌, ◌∷◌, [], ◌++◌, ◌+◌, ◌≤◌, ◌<◌, length, take};

// The places of the containers that are open, outermost first.
// An array and how many of it are in use: a Vec would need a heap, which this repository does without.
#[derive(Clone, Copy)]
pub struct Trail {
    places: [usize; 16],
    len: usize,
    pub ghost sixteen: { length places ≡ 16 },
    pub ghost few: { len ≤ 16 },
}

impl Trail {
    pub fn none() -> Trail
        ensures { result.len ≡ 0 }
    {
        Trail {
            places: [0; 16],
            len: 0,
        }
    }

    pub fn len(&self) -> usize
        ensures { result ≡ self.now.len }
    {
        self.len
    }

    pub fn push(&mut self, place: usize)
        requires { self.old.len < 16 }
        ensures len { self.new.len ≡ self.old.len + 1 }
        ensures places { take self.new.len self.new.places ≡ take self.old.len self.old.places ++ (place ∷ []) }
    {
        self.places[self.len] = place;
        self.len += 1;
    }

    pub fn places(&self) -> &[usize]
        ensures { result.now ≡ take self.now.len self.now.places }
    {
        &self.places[..self.len]
    }
}
