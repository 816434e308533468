// A hart's words after a reset, and check 2.
ghost use Rattle.std.specs.Prelude.{◌≡◌, [], ◌∷◌, length};
ghost use Rattle.bits.specs.Field.{pick};
ghost use Rattle.hart.specs.Hart.{reset, passes};
ghost use Rattle.layout.specs.Layout.{hart_size, words, hart_of};
ghost use Rattle.layout.specs.Taken.{put};

use hart::state::Hart;

// A hart of whose registers no stored bit is set.
#[unsafe(no_mangle)]
pub extern "C" fn balcumentri_reset(v: u64, privilege: u64, pc: u64, out: &mut [u64]) -> u64
    ensures { (result, out.new) ≡ put hart_size hart_size out.old (words (reset v privilege pc)) }
{
    layout::put(&Hart::reset(v, privilege, pc), layout::HART, &mut *out)
}

// Check 2: 1 where the hart passes, else 0.
#[unsafe(no_mangle)]
pub extern "C" fn balcumentri_passes(h: &[u64], out: &mut [u64]) -> u64
    ensures { (result, out.new) ≡ put (length h.now) 1 out.old (pick (passes (hart_of h.now)) 1 0 ∷ []) }
{
    layout::put(&layout::hart_of(h).passes(), h.len(), &mut *out)
}
