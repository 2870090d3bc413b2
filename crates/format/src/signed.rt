// Signed whole numbers from -2^63 to 2^63 - 1, and the words that a table holds for them.
ghost use Rattle.std.specs.Prelude.{◌≡◌};
ghost use Rattle.format.specs.Numbers.{signed, twos};

// The whole number whose eight bytes, in two's complement, make the word w.
pub fn value_of(w: u64) -> i64
    ensures { result ≡ signed 8 w }
{
    w.cast_signed()
}

// The word of a whole number: its value modulo 2^64.
pub fn word_of(z: i64) -> u64
    ensures { result ≡ twos 8 z }
{
    z.cast_unsigned()
}
