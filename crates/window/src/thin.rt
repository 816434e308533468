// The two forms of code over a window, for any code that they call, any further argument and any answer: each function is a law, which
// its clause states.
use crate::Window;

// Code over base and bytes, called with a window's: what it answers over the two is answered over the window.
fn takes<'a, X, A, F: FnOnce(u64, &'a [u8], X) -> A>(code: F, w: Window<'a>, x: X) -> A
    requires { F.pre code w.base w.bytes x }
    ensures { F.post code w.entry.base w.entry.bytes x result }
{
    code(w.base, w.bytes, x)
}

// Code over a window, called with one made of base and lent bytes: what it answers over that window is answered over the two.
fn makes<'a, X, A, F: FnOnce(Window<'a>, X) -> A>(code: F, base: u64, lent: &'a [u8], x: X) -> A
    requires { F.pre code (record { base = base; bytes = lent }) x }
    ensures { F.post code (record { base = base; bytes = lent.entry }) x result }
{
    code(Window { base, bytes: lent }, x)
}
