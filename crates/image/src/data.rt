// Bytes of the image loaded and stored.
ghost use Rattle.std.specs.Prelude.{◌≡◌, ◌+◌, ◌*◌, ◌^◌, ◌<◌, ◌≤◌, true, length, take, drop};
ghost use Rattle.std.proofs.lemmas.List.Edits.{sets};
ghost use Rattle.image.specs.Image.{within};
ghost use Rattle.image.specs.Data.{little, low_bytes, extended, loaded, stored};

// The number that the bytes from an offset on make, little-endian.
fn join(s: &[u8], at: usize, width: usize) -> u64
    requires fits { at + width ≤ length s.now }
    requires few { width ≤ 8 }
    ensures value { result ≡ little (take width (drop at s.now)) }
    ensures small { result < 2 ^ (8 * width) }
{
    let mut bytes = [0u8; 8];
    bytes[..width].copy_from_slice(&s[at..at + width]);
    u64::from_le_bytes(bytes)
}

// A number of so many bytes in 64 bits.
fn extend(x: u64, width: u64, signed: bool) -> u64
    requires some { 1 ≤ width }
    requires few { width ≤ 8 }
    requires small { x < 2 ^ (8 * width) }
    ensures { result ≡ extended signed width x }
{
    let sign = 1u64 << (8 * width - 1);
    if signed & (sign <= x) {
        return x - sign + (0xFFFF_FFFF_FFFF_FFFF - sign) + 1;
    }
    x
}

// The low bytes of a number, from an offset on.
fn split(s: &mut [u8], at: usize, width: usize, value: u64)
    requires { at + width ≤ length s.old }
    ensures { s.new ≡ sets s.old at (low_bytes width value) }
{
    let mut rest = value;
    for byte in s[at..at + width].iter_mut() {
        *byte = (rest % 256) as u8;
        rest /= 256;
    }
}

// The bytes at a machine address.
pub fn load(base: u64, bytes: &[u8], address: u64, width: u64, signed: bool) -> u64
    requires some { 1 ≤ width }
    requires few { width ≤ 8 }
    requires inside { within base (length bytes.now) address width ≡ true }
    ensures { result ≡ loaded base bytes.now address width signed }
{
    let x = join(bytes, (address - base) as usize, width as usize);
    extend(x, width, signed)
}

// Stores the low bytes of a value at a machine address.
pub fn store(base: u64, bytes: &mut [u8], address: u64, width: u64, value: u64)
    requires { within base (length bytes.old) address width ≡ true }
    ensures { bytes.new ≡ stored base bytes.old address width value }
{
    split(
        &mut *bytes,
        (address - base) as usize,
        width as usize,
        value,
    )
}
