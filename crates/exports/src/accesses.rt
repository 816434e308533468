// Register access on a hart's words.
ghost use Rattle.std.specs.Prelude.{◌≡◌};
ghost use Rattle.hart.specs.Access.{read, write, set, clear};
ghost use Rattle.hart.specs.declared.state.Hart.{Hart};
ghost use Rattle.exports.specs.Calls.{on_access};

use csr::Form;

// Each is a symbol of its own, which C calls by name.

// Reads the register with a number.
#[unsafe(no_mangle)]
pub extern "C" fn balcumentri_read(h: &[u64], number: u64, word: u32, out: &mut [u64]) -> u64
    ensures { (result, out.new) ≡ on_access (λ (x : Hart). read x number word) h.now out.old }
{
    layout::access_into(h, Form::Read, number, 0, false, word, &mut *out)
}

// Writes w to it.
#[unsafe(no_mangle)]
pub extern "C" fn balcumentri_write(
    h: &[u64],
    number: u64,
    w: u64,
    word: u32,
    out: &mut [u64],
) -> u64
    ensures { (result, out.new) ≡ on_access (λ (x : Hart). write x number w word) h.now out.old }
{
    layout::access_into(h, Form::Write, number, w, true, word, &mut *out)
}

// Sets the bits of w in it, if the access writes.
#[unsafe(no_mangle)]
pub extern "C" fn balcumentri_set(
    h: &[u64],
    number: u64,
    w: u64,
    writes: bool,
    word: u32,
    out: &mut [u64],
) -> u64
    ensures { (result, out.new) ≡ on_access (λ (x : Hart). set x number w writes word) h.now out.old }
{
    layout::access_into(h, Form::Set, number, w, writes, word, &mut *out)
}

// Clears the bits of w in it, if the access writes.
#[unsafe(no_mangle)]
pub extern "C" fn balcumentri_clear(
    h: &[u64],
    number: u64,
    w: u64,
    writes: bool,
    word: u32,
    out: &mut [u64],
) -> u64
    ensures { (result, out.new) ≡ on_access (λ (x : Hart). clear x number w writes word) h.now out.old }
{
    layout::access_into(h, Form::Clear, number, w, writes, word, &mut *out)
}
