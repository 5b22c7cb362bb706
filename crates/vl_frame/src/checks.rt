ghost use Rattle.std.specs.Prelude.{◌≡◌, ◌<◌, ◌^◌, length};
ghost use Rattle.vl_frame.specs.Frame.{check_of, head_bytes, place_bytes};

use crate::kinds::{FileKind, FrameKind};
use byteorder::{BigEndian, ByteOrder};
use sha2::{Digest, Sha256};

// Where a frame stands, as its check sees it.
fn place(file: FileKind, number: u32, at: u64) -> [u8; 13]
    ensures { result ≡ place_bytes file number at }
{
    let mut place = [0u8; 13];
    place[0] = file.code();
    BigEndian::write_u32(&mut place[1..], number);
    BigEndian::write_u64(&mut place[5..], at);
    place
}

/// What stands before a body of this length.
pub fn head(kind: FrameKind, length: u32) -> [u8; 5]
    ensures { result ≡ head_bytes kind length }
{
    let mut head = [0u8; 5];
    head[0] = kind.code();
    BigEndian::write_u32(&mut head[1..], length);
    head
}

/// The check of a frame that stands at this place of the file with this number.
#[tactic(auto, unfolding(crate::specs::Frame::check_of))]
pub fn check(number: u32, at: u64, kind: FrameKind, body: &[u8]) -> [u8; 8]
    requires { length body.now < 2 ^ 32 }
    ensures { result ≡ check_of number at kind body.now }
{
    let mut hasher = Sha256::new();
    hasher.update(place(kind.file(), number, at));
    hasher.update(head(kind, body.len() as u32));
    hasher.update(body);
    let digest = hasher.finalize();
    let mut check = [0u8; 8];
    check.copy_from_slice(&digest[..8]);
    check
}
