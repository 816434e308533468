// Fields of a 64-bit word: what one holds, and the word with one changed.
#![tactic(auto)]

ghost use Rattle.std.specs.Prelude.{◌≡◌};
ghost use Rattle.bits.specs.Field.{Fits, get, put, has, pick};

// A field of a word: its lowest bit and its width.
#[derive(Clone, Copy)]
pub struct Field {
    pub low: u64,
    pub width: u64,
}

impl Field {
    // What the field holds in x.
    pub fn get(self, x: u64) -> u64
        requires { Fits self }
        ensures { result ≡ get self x }
    {
        (x >> self.low) % (1 << self.width)
    }

    // x with the field holding v.
    pub fn put(self, v: u64, x: u64) -> u64
        requires { Fits self }
        ensures { result ≡ put self v x }
    {
        let m = ((1u64 << self.width) - 1) << self.low;
        (x & !m) | ((v << self.low) & m)
    }
}

// Whether bit n of x is set; there is none from 64 up.
pub fn has(n: u64, x: u64) -> bool
    ensures { result ≡ has n x }
{
    if n < 64 {
        return (x >> n) % 2 == 1;
    }
    false
}

pub fn select(c: bool, a: u64, b: u64) -> u64
    ensures { result ≡ pick c a b }
{
    if c { a } else { b }
}
