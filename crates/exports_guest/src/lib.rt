// The C face of the hypervisor loads and stores, on a hart's words. Apart from the other calls so that each object has a walk of its own: the compiler
// then makes one piece of a translation and its walk.
#![tactic(auto)]

ghost use Rattle.std.specs.Prelude.{◌≡◌};
ghost use Rattle.hart.specs.Guest.{hlv, hlvx, hsv};
ghost use Rattle.hart.specs.declared.state.Hart.{Hart};
ghost use Rattle.exports_guest.specs.Calls.{on_load, on_store};

// HLV.
#[unsafe(no_mangle)]
pub extern "C" fn balcumentri_hlv(
    h: &[u64],
    base: u64,
    bytes: &[u8],
    width: u64,
    signed: bool,
    address: u64,
    word: u32,
    out: &mut [u64],
) -> u64
    ensures { (result, out.new) ≡ on_load (λ (x : Hart). hlv x base bytes.now width signed address word) h.now out.old }
{
    let p = layout::hart_of(h).hlv(base, bytes, width, signed, address, word);
    layout::put(&p, h.len(), &mut *out)
}

// HLVX.
#[unsafe(no_mangle)]
pub extern "C" fn balcumentri_hlvx(
    h: &[u64],
    base: u64,
    bytes: &[u8],
    width: u64,
    address: u64,
    word: u32,
    out: &mut [u64],
) -> u64
    ensures { (result, out.new) ≡ on_load (λ (x : Hart). hlvx x base bytes.now width address word) h.now out.old }
{
    let p = layout::hart_of(h).hlvx(base, bytes, width, address, word);
    layout::put(&p, h.len(), &mut *out)
}

// HSV. It stores into the image, unless it writes no result.
#[unsafe(no_mangle)]
pub extern "C" fn balcumentri_hsv(
    h: &[u64],
    base: u64,
    bytes: &mut [u8],
    width: u64,
    address: u64,
    value: u64,
    word: u32,
    out: &mut [u64],
) -> u64
    ensures { (result, out.new, bytes.new) ≡ on_store (λ (x : Hart). hsv x base bytes.old width address value word) h.now bytes.old out.old }
{
    if layout::misfit(h.len(), out.len(), layout::guest::PERFORMED) {
        return 1;
    }
    let p = layout::hart_of(h).hsv(base, &mut *bytes, width, address, value, word);
    layout::put(&p, h.len(), &mut *out)
}
