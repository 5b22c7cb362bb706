//! The first bytes of a file, by which it says what it is: the letters of its kind, its format, its number and zero,
//! four bytes each.

ghost use Rattle.std.specs.Prelude.{◌≡◌, ◌↔◌, ◌<◌, ◌≤◌, length, ℕ, IfNone, IfSome, IsTrue};
ghost use Rattle.vl_frame.specs.Header.{HasFormat, IsHeader, IsHeaderApart, header_bytes, letters};

use crate::kinds::FileKind;
use crate::numbers::{take_bytes, take_u32};
use byteorder::{BigEndian, ByteOrder};

/// How many bytes stand before a file's first frame.
pub const HEADER_BYTES: usize = 16;

/// The header of the file of this kind with this number, in this format.
pub fn file_header(kind: FileKind, format: u32, number: u32) -> [u8; HEADER_BYTES]
    ensures { result ≡ header_bytes kind format number }
{
    let mut header = [0; HEADER_BYTES];
    header[..4].copy_from_slice(&kind.letters());
    BigEndian::write_u32(&mut header[4..], format);
    BigEndian::write_u32(&mut header[8..], number);
    header
}

/// The format of the file of this kind with this number, whose bytes these are. None where they don't begin with its
/// header in a format from 1 to `greatest`, the greatest that is read.
pub fn read_header(bytes: &[u8], kind: FileKind, number: u32, greatest: u32) -> Option<u32>
    ensures found { IfSome result (λ format. IsHeader kind format number bytes.now) }
    ensures readable { IfSome result (λ format. (1 ≤ format) × (format ≤ greatest)) }
    ensures none { IfNone result ((format : ℕ) → 1 ≤ format → format ≤ greatest
        → IsHeader kind format number bytes.now → ⊥) }
{
    let header = take_header(bytes)?;
    if !header.is_right(kind, number) || header.format == 0 || header.format > greatest {
        return None;
    }
    Some(header.format)
}

/// The format that a file's bytes say which begin with the letters of its kind. Nothing but these two is looked at, as
/// befits a format that isn't known.
pub fn read_format(bytes: &[u8], kind: FileKind) -> Option<u32>
    ensures found { IfSome result (HasFormat kind bytes.now) }
    ensures none { IfNone result ((format : ℕ) → HasFormat kind bytes.now format → ⊥) }
{
    let header = take_header(bytes)?;
    if !header.is_of(kind) {
        return None;
    }
    Some(header.format)
}

// What stands where a header does, right or not.
#[derive(Clone, Copy)]
struct Header<'a> {
    front: &'a [u8],
    format: u32,
    number: u32,
    last: u32,
}

impl Header<'_> {
    fn is_of(&self, kind: FileKind) -> bool
        ensures { IsTrue result ↔ (self.now.front.now ≡ letters kind) }
    {
        self.front == kind.letters().as_slice()
    }

    fn is_right(&self, kind: FileKind, number: u32) -> bool
        ensures { IsTrue result ↔
            ((self.now.front.now ≡ letters kind) × (self.now.number ≡ number) × (self.now.last ≡ 0)) }
    {
        self.is_of(kind) && self.number == number && self.last == 0
    }
}

fn take_header(bytes: &[u8]) -> Option<Header<'_>>
    ensures found { IfSome result (λ h. IsHeaderApart h.front.now h.format h.number h.last bytes.now) }
    ensures none { IfNone result (length bytes.now < HEADER_BYTES) }
{
    let (front, rest) = take_bytes(bytes, 4)?;
    let (format, rest) = take_u32(rest)?;
    let (number, rest) = take_u32(rest)?;
    let (last, _) = take_u32(rest)?;
    Some(Header {
        front,
        format,
        number,
        last,
    })
}
