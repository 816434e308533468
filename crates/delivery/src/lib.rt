// Where a trap goes and what pc becomes there, the cause of an environment call, and a breakpoint.
#![tactic(auto)]

ghost use Rattle.std.specs.Prelude.{◌≡◌};
ghost use Rattle.delivery.specs.Delivery.{target, handler, call_cause, breakpoint};

use exceptions::Exception;
use privilege::{Context, Mode};

#[derive(Clone, Copy)]
pub enum Target {
    M,
    HS,
    VS,
}

// Where a trap goes: from M to M, otherwise by the delegation registers.
pub fn delivers_to(c: Context, medeleg: u64, hedeleg: u64, cause: u64) -> Target
    ensures { result ≡ target c medeleg hedeleg cause }
{
    if c.is(Mode::M) | !bits::has(cause, medeleg) {
        return Target::M;
    }
    if (c.v == 1) & bits::has(cause, hedeleg) {
        return Target::VS;
    }
    Target::HS
}

// What pc becomes at the target: tvec's base, and for an interrupt, where tvec is vectored, 4 times the cause behind it.
pub fn handler(tvec: u64, cause: u64) -> u64
    ensures { result ≡ handler tvec cause }
{
    let base = tvec - tvec % 4;
    if bits::has(63, cause) & bits::has(0, tvec) {
        return std::num::wrapping_add_u64(base, cause << 2);
    }
    base
}

// The cause of an environment call, by mode.
pub fn call_cause(c: Context) -> u64
    ensures { result ≡ call_cause c }
{
    let other = bits::select(c.is(Mode::HS), 9, 8);
    bits::select(c.is(Mode::M), 11, bits::select(c.is(Mode::VS), 10, other))
}

// A breakpoint at pc.
pub fn breakpoint(v: u64, pc: u64) -> Exception
    ensures { result ≡ breakpoint v pc }
{
    Exception {
        cause: 3,
        value: pc,
        value2: 0,
        word: 0,
        flag: v == 1,
    }
}
