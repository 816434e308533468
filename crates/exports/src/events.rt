// The events on a hart's words: each hands the next hart back, with what the event came to. An instruction that can give cause 2 or 22 has its own word.
ghost use Rattle.std.specs.Prelude.{◌≡◌};
ghost use Rattle.hart.specs.Trap.{trap, ecall, ebreak};
ghost use Rattle.hart.specs.Interrupt.{interrupt};
ghost use Rattle.hart.specs.Return.{mret, sret};
ghost use Rattle.hart.specs.Wait.{wfi, sfence_vma, hfence_vvma, hfence_gvma};
ghost use Rattle.hart.specs.declared.state.Hart.{Hart};
ghost use Rattle.exports.specs.Calls.{on_step};

use exceptions::Exception;

// Each is a symbol of its own, which C calls by name.

// A trap request.
#[unsafe(no_mangle)]
pub extern "C" fn balcumentri_trap(
    h: &[u64],
    cause: u64,
    value: u64,
    value2: u64,
    word: u64,
    flag: bool,
    out: &mut [u64],
) -> u64
    ensures { (result, out.new) ≡ on_step (λ (x : Hart). trap x (record { cause = cause; value = value; value2 = value2; word = word; flag = flag })) h.now out.old }
{
    let t = Exception {
        cause,
        value,
        value2,
        word,
        flag,
    };
    layout::put(&layout::hart_of(h).trap(t), h.len(), &mut *out)
}

// ECALL.
#[unsafe(no_mangle)]
pub extern "C" fn balcumentri_ecall(h: &[u64], out: &mut [u64]) -> u64
    ensures { (result, out.new) ≡ on_step ecall h.now out.old }
{
    layout::put(&layout::hart_of(h).ecall(), h.len(), &mut *out)
}

// EBREAK.
#[unsafe(no_mangle)]
pub extern "C" fn balcumentri_ebreak(h: &[u64], out: &mut [u64]) -> u64
    ensures { (result, out.new) ≡ on_step ebreak h.now out.old }
{
    layout::put(&layout::hart_of(h).ebreak(), h.len(), &mut *out)
}

// MRET.
#[unsafe(no_mangle)]
pub extern "C" fn balcumentri_mret(h: &[u64], word: u32, out: &mut [u64]) -> u64
    ensures { (result, out.new) ≡ on_step (λ (x : Hart). mret x word) h.now out.old }
{
    layout::put(&layout::hart_of(h).mret(word), h.len(), &mut *out)
}

// SRET.
#[unsafe(no_mangle)]
pub extern "C" fn balcumentri_sret(h: &[u64], word: u32, out: &mut [u64]) -> u64
    ensures { (result, out.new) ≡ on_step (λ (x : Hart). sret x word) h.now out.old }
{
    layout::put(&layout::hart_of(h).sret(word), h.len(), &mut *out)
}

// WFI.
#[unsafe(no_mangle)]
pub extern "C" fn balcumentri_wfi(h: &[u64], word: u32, out: &mut [u64]) -> u64
    ensures { (result, out.new) ≡ on_step (λ (x : Hart). wfi x word) h.now out.old }
{
    layout::put(&layout::hart_of(h).wfi(word), h.len(), &mut *out)
}

// SFENCE.VMA.
#[unsafe(no_mangle)]
pub extern "C" fn balcumentri_sfence_vma(h: &[u64], word: u32, out: &mut [u64]) -> u64
    ensures { (result, out.new) ≡ on_step (λ (x : Hart). sfence_vma x word) h.now out.old }
{
    layout::put(&layout::hart_of(h).sfence_vma(word), h.len(), &mut *out)
}

// HFENCE.VVMA.
#[unsafe(no_mangle)]
pub extern "C" fn balcumentri_hfence_vvma(h: &[u64], word: u32, out: &mut [u64]) -> u64
    ensures { (result, out.new) ≡ on_step (λ (x : Hart). hfence_vvma x word) h.now out.old }
{
    layout::put(&layout::hart_of(h).hfence_vvma(word), h.len(), &mut *out)
}

// HFENCE.GVMA.
#[unsafe(no_mangle)]
pub extern "C" fn balcumentri_hfence_gvma(h: &[u64], word: u32, out: &mut [u64]) -> u64
    ensures { (result, out.new) ≡ on_step (λ (x : Hart). hfence_gvma x word) h.now out.old }
{
    layout::put(&layout::hart_of(h).hfence_gvma(word), h.len(), &mut *out)
}

// Takes the interrupt that is due.
#[unsafe(no_mangle)]
pub extern "C" fn balcumentri_interrupt(h: &[u64], out: &mut [u64]) -> u64
    ensures { (result, out.new) ≡ on_step interrupt h.now out.old }
{
    layout::put(&layout::hart_of(h).interrupt(), h.len(), &mut *out)
}
