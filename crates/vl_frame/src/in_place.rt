//! A frame that is built where it stands in memory: first room for its head, then the body, and last head and check.

ghost use Rattle.std.specs.Prelude.{◌≡◌, ◌++◌, ◌<◌, ◌≤◌, ◌^◌, ℕ, List, OnErr, OnOk, drop, length};
ghost use Rattle.vl_frame.specs.Frame.{frame_bytes};

use crate::checks::{check, head};
use crate::kinds::FrameKind;
use crate::limits::{FRAME_BYTES, MAX_FRAME_BYTES};
use std::alloc::AllocError;

/// How many bytes a frame has before its body: one of kind, and four of length.
pub const HEAD_BYTES: usize = 5;

/// Completes a frame whose body stands in a buffer, behind room for its head: fills the room, and appends the check. The
/// body isn't copied. The frame is to stand at the place `at` of the file with this number and of the frame's kind of
/// file. Want of memory is the answer too where it would be longer than `MAX_FRAME_BYTES`.
#[tactic(auto, unfolding(crate::specs::Frame::frame_bytes))]
pub fn finish_frame(
    frame: &mut Vec<u8>,
    number: u32,
    at: u64,
    kind: FrameKind,
) -> Result<(), AllocError>
    ensures written { (room body : List ℕ) → length room ≡ 5 → frame.old.items ≡ room ++ body
        → OnOk result (frame.new.items ≡ frame_bytes number at kind body) }
    ensures short { OnOk result (length frame.new.items < 2 ^ 32) }
    ensures err { OnErr result (frame.new.items ≡ frame.old.items) }
{
    if frame.len() < HEAD_BYTES || frame.len() > MAX_FRAME_BYTES - 8 {
        return Err(AllocError);
    }
    let body = &frame[HEAD_BYTES..];
    let length = body.len() as u32;
    let check = check(number, at, kind, body);
    frame.extend_from_slice(&check)?;
    fill_head(frame, &head(kind, length));
    Ok(())
}

// Writes a head over the room for it.
fn fill_head(frame: &mut [u8], head: &[u8; HEAD_BYTES])
    requires { HEAD_BYTES ≤ length frame.old }
    ensures { frame.new ≡ head.now ++ drop HEAD_BYTES frame.old }
{
    frame[..HEAD_BYTES].copy_from_slice(head);
}
