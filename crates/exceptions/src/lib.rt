// What a trap delivers and a translation's fault holds, and why bad input is refused.
#![tactic(auto)]

ghost use Rattle.std.specs.Prelude.{◌≡◌};
ghost use Rattle.exceptions.specs.Refusal.{number};

// Cause, value, second value, instruction word and guest-address flag.
#[derive(Clone, Copy)]
pub struct Exception {
    pub cause: u64,
    pub value: u64,
    pub value2: u64,
    pub word: u64,
    pub flag: bool,
}

// Bad input, by what is bad of it: the image, the hart (check 2), an access that is unsupported, a trap request that can't arise, a
// register number, or the place of a stopped walk.
#[derive(Clone, Copy)]
pub enum Refusal {
    Image,
    Hart,
    Access,
    Request,
    Register,
    Place,
}

impl From<Refusal> for u64 {
    ghost from_gives = { λ r n. n ≡ number r };

    // The number that the rules give it.
    fn from(refusal: Refusal) -> u64 {
        match refusal {
            Refusal::Image => 1,
            Refusal::Hart => 2,
            Refusal::Access => 3,
            Refusal::Request => 4,
            Refusal::Register => 5,
            Refusal::Place => 6,
        }
    }
}
