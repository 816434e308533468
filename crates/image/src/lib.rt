// The image: a base and a lent run of bytes. A walk only reads it.
#![tactic(auto)]

ghost use Rattle.std.specs.Prelude.{◌≡◌, ◌+◌, ◌-◌, ◌^◌, ◌<◌, ◌≤◌, length};
ghost use Rattle.image.specs.Image.{unfit, within, four, eight, entry};

pub mod data;

// Whether an image is refused as 1.
pub fn refused(base: u64, len: u64) -> bool
    ensures { result ≡ unfit base len }
{
    if 0x400_0000 < len {
        return true;
    }
    (base % 0x1000 != 0) | (len % 0x1000 != 0) | (0x100_0000_0000_0000 - len < base)
}

// Whether the whole access lies in the image. No sum is made, so none wraps.
pub fn inside(base: u64, len: u64, address: u64, width: u64) -> bool
    ensures { result ≡ within base len address width }
{
    if address < base {
        return false;
    }
    if len < width {
        return false;
    }
    address - base <= len - width
}

// The eight bytes from an offset on, little-endian.
fn load(s: &[u8], at: usize) -> u64
    requires { at + 8 ≤ length s.now }
    ensures { result ≡ eight s.now at }
{
    u64::from_le_bytes(<[u8; 8]>::try_from(&s[at..at + 8]).unwrap())
}

// The entry at a machine address; none stands outside the image.
pub fn fetch(base: u64, bytes: &[u8], address: u64) -> Option<u64>
    ensures { result ≡ entry base bytes.now address }
{
    if inside(base, bytes.len() as u64, address, 8) {
        return Some(load(bytes, (address - base) as usize));
    }
    None
}

// The first offset at which no entry stands.
pub fn limit(len: u64) -> u64
    ensures { result ≡ len - 7 }
{
    len.saturating_sub(7)
}

// An image that a walk reads, with the first offset at which no entry stands.
#[derive(Clone, Copy)]
pub struct Image<'a> {
    pub base: u64,
    pub limit: u64,
    pub bytes: &'a [u8],
    pub ghost ends: { base + length bytes.now ≤ 2 ^ 56 },
    pub ghost last: { limit ≡ length bytes.now - 7 },
}

impl<'a> Image<'a> {
    pub fn new(base: u64, bytes: &'a [u8]) -> Image<'a>
        requires { base + length bytes.now ≤ 2 ^ 56 }
        ensures same_base { result.base ≡ base }
        ensures same_bytes { result.bytes.now ≡ bytes.now }
    {
        let limit = limit(bytes.len() as u64);
        Image { base, limit, bytes }
    }

    // The entry at a machine address, by one comparison: an address below the base wraps to an offset past the limit.
    pub fn entry(self, address: u64) -> Option<u64>
        ensures { result ≡ entry self.entry.base self.entry.bytes.now address }
    {
        let offset = address.wrapping_sub(self.base);
        if offset < self.limit {
            return Some(load(self.bytes, offset as usize));
        }
        None
    }
}
