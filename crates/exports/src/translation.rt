// Translation on a hart's words.
ghost use Rattle.std.specs.Prelude.{◌≡◌};
ghost use Rattle.exports.specs.Calls.{on_translation};

// The translation of an access: 0 a fetch, 1 a load, 2 a store.
#[unsafe(no_mangle)]
pub extern "C" fn balcumentri_translate(
    h: &[u64],
    base: u64,
    bytes: &[u8],
    kind: u64,
    address: u64,
    width: u64,
    out: &mut [u64],
) -> u64
    ensures { (result, out.new) ≡ on_translation h.now base bytes.now kind address width out.old }
{
    let hart = layout::hart_of(h);
    listing::put_translation(hart, h.len(), base, bytes, kind, address, width, &mut *out)
}
