// The word layout of a hart and of what an event comes to, in and out: a hart is read out of a slice, and results are written into one.
#![tactic(auto)]

ghost use Rattle.std.specs.Prelude.{◌≡◌, [], ◌∷◌, ◌++◌, ℕ, ◌≤◌, List, Bool, length, take, drop};
ghost use Rattle.std.specs.Bool.{OnFalse};
ghost use Rattle.bits.specs.Field.{pick};
ghost use Rattle.registers.specs.Places.{kept};
ghost use Rattle.hart.specs.Event.{step};
ghost use Rattle.hart.specs.Access.{access};
ghost use Rattle.hart.specs.Lent.{on};
ghost use Rattle.layout.specs.Layout.{hart_size, words, hart_of, outcome_words, step_size, step_words, access_size, access_words};
ghost use Rattle.layout.specs.Taken.{misfit, over, put};

use csr::Form;
use hart::accesses::Accessed;
use hart::control::Control;
use hart::event::{Outcome, Step};
use hart::state::Hart;
use registers::places;

pub mod guest;

// How many words a hart, an event's result and a register access's take.
pub const HART: usize = 3 + places::KEPT;

pub const STEP: usize = HART + 2;

pub const ACCESS: usize = STEP + 1;

// The hart that is read where there are more words or fewer than one has.
const BLANK: Hart = Hart {
    v: 0,
    privilege: 0,
    pc: 0,
    regs: [0; places::KEPT],
};

// The hart that some words say. (Its registers one by one: the compiler then keeps what the caller reads of them, and copies no block.)
pub fn hart_of(ws: &[u64]) -> Hart
    ensures { result ≡ hart_of ws.now }
{
    if ws.len() != HART {
        return BLANK;
    }
    let words = &ws[3..];
    let mut regs = [0; places::KEPT];
    for i in 0..places::KEPT {
        regs[i] = words[i];
    }
    Hart {
        v: ws[0],
        privilege: ws[1],
        pc: ws[2],
        regs,
    }
}

// A hart, over a whole slice. (Its registers one by one: `copy_from_slice` calls memmove, which the C library would then have to bring.)
fn write_hart(hart: &Hart, out: &mut [u64])
    requires { length out.old ≡ hart_size }
    ensures { out.new ≡ words hart.now }
{
    out[0] = hart.v;
    out[1] = hart.privilege;
    out[2] = hart.pc;
    for i in 0..places::KEPT {
        out[3 + i] = hart.regs[i];
    }
}

// An event's result.
fn write_step(hart: &Hart, outcome: Outcome, out: &mut [u64])
    requires { length out.old ≡ step_size }
    ensures { out.new ≡ step_words (step hart.now outcome) }
{
    write_hart(hart, &mut out[..HART]);
    out[HART..].copy_from_slice(&outcome_words(outcome));
}

// A register access's result.
fn write_access(hart: &Hart, outcome: Outcome, value: u64, out: &mut [u64])
    requires { length out.old ≡ access_size }
    ensures { out.new ≡ step_words (step hart.now outcome) ++ (value ∷ []) }
{
    write_step(hart, outcome, &mut out[..STEP]);
    out[STEP] = value;
}

// What is written as words.
pub trait Words {
    // How many, and which.
    ghost SIZE: { ℕ };

    ghost written: { Self → List ℕ };

    const SIZE: usize;

    // Writes them over a slice of so many words; one of another length stays as it is.
    fn write_to(&self, out: &mut [u64])
        ensures { out.new ≡ over SIZE out.old (written self.now) };
}

impl Words for Hart {
    ghost SIZE = { hart_size };

    ghost written = { words };

    const SIZE: usize = HART;

    fn write_to(&self, out: &mut [u64]) {
        if out.len() == HART {
            write_hart(self, out);
        }
    }
}

fn outcome_words(o: Outcome) -> [u64; 2]
    ensures { result ≡ outcome_words o }
{
    match o {
        Outcome::Done => [0, 0],
        Outcome::Trapped(cause) => [1, cause],
        Outcome::Refused(refusal) => [2, u64::from(refusal)],
        Outcome::Interrupted(number) => [3, number],
    }
}

// An event's result.
impl Words for Step {
    ghost SIZE = { step_size };

    ghost written = { step_words };

    const SIZE: usize = STEP;

    fn write_to(&self, out: &mut [u64]) {
        if out.len() == STEP {
            write_step(&self.hart, self.outcome, out);
        }
    }
}

// A register access's result.
impl Words for Accessed {
    ghost SIZE = { access_size };

    ghost written = { access_words };

    const SIZE: usize = ACCESS;

    fn write_to(&self, out: &mut [u64]) {
        if out.len() == ACCESS {
            write_access(&self.hart, self.outcome, self.value, out);
        }
    }
}

// A test's answer: 1 where it is true, else 0.
impl Words for bool {
    ghost SIZE = { 1 };

    ghost written = { λ b. pick b 1 0 ∷ [] };

    const SIZE: usize = 1;

    fn write_to(&self, out: &mut [u64]) {
        if out.len() == 1 {
            out[0] = u64::from(*self);
        }
    }
}

// Whether a length is wrong: that of a hart's slice, or that of a result of some number of words.
pub fn misfit(hart: usize, out: usize, size: usize) -> bool
    ensures test { result ≡ misfit hart out size }
    ensures fits { OnFalse result ((hart ≡ hart_size) × (out ≡ size)) }
{
    hart != HART || out != size
}

// Writes a result and returns 0, a number since it is what C's call returns. Where a length is wrong, that of the hart's slice (given) or the result's, it writes nothing and returns 1.
// (Inlined, as the words of `Performed` are: what a call gets is then written where it stands, and not copied with its list before.)
#[inline(always)]
pub fn put<T: Words>(x: &T, given: usize, out: &mut [u64]) -> u64
    ensures { (result, out.new) ≡ put given T.SIZE out.old (T.written x.now) }
{
    if misfit(given, out.len(), T::SIZE) {
        return 1;
    }
    x.write_to(out);
    0
}

// What an event comes to, around the registers that stand there.
fn put_around(to: Control, outcome: Outcome, out: &mut [u64])
    requires { step_size ≤ length out.old }
    ensures { out.new ≡ step_words (step (on to (take kept (drop 3 out.old))) outcome) ++ drop step_size out.old }
{
    out[0] = to.v;
    out[1] = to.privilege;
    out[2] = to.pc;
    out[HART..STEP].copy_from_slice(&outcome_words(outcome));
}

// A hart's words. Two are read, then two are written, which the compiler makes one load and one store; `copy_from_slice` calls memmove, and slows an access.
fn copy(ws: &[u64], out: &mut [u64])
    requires from { length ws.now ≡ hart_size }
    requires to { length out.old ≡ hart_size }
    ensures { out.new ≡ ws.now }
{
    for i in 0..HART / 2 {
        let (a, b) = (ws[2 * i], ws[2 * i + 1]);
        out[2 * i] = a;
        out[2 * i + 1] = b;
    }
}

// A register access on a hart's words, made where its result stands.
pub fn access_into(
    h: &[u64],
    form: Form,
    number: u64,
    w: u64,
    writes: bool,
    word: u32,
    out: &mut [u64],
) -> u64
    ensures { (result, out.new) ≡ put (length h.now) access_size out.old (access_words (access (hart_of h.now) form number w writes word)) }
{
    if misfit(h.len(), out.len(), ACCESS) {
        return 1;
    }
    let passed = hart_of(h).passes();
    copy(h, &mut out[..HART]);
    let from = hart_of(h).control();
    let answer = from.access(passed, form, number, w, writes, word, &mut out[3..HART]);
    out[STEP] = answer.value;
    put_around(answer.control, answer.outcome, &mut *out);
    0
}
