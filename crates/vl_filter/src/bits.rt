//! Single bits of bytes, the least of a byte first.

ghost use Rattle.std.specs.Prelude.{◌≡◌, ◌<◌, ◌*◌, ◌==◌, ◌||◌, ℕ, length};
ghost use Rattle.vl_filter.specs.Bits.{is_set};

pub fn is_set(bytes: &[u8], place: u64) -> bool
    requires { place < 8 * length bytes.now }
    ensures { result ≡ is_set bytes.now place }
{
    let byte = bytes[(place / 8) as usize];
    (byte >> (place % 8)) & 1 == 1
}

pub fn set(bytes: &mut [u8], place: u64)
    requires { place < 8 * length bytes.old }
    ensures { (p : ℕ) → is_set bytes.new p ≡ (p == place || is_set bytes.old p) }
{
    let at = (place / 8) as usize;
    bytes[at] |= 1 << (place % 8);
}
