ghost use Rattle.std.specs.Prelude.{◌≡◌, ◌+◌, ◌++◌, ◌<◌, ◌≤◌, ◌^◌, IsOk, OnErr, OnOk, length, vec_capacity, vec_len};
ghost use Rattle.vl_frame.specs.Frame.{frame_bytes, frame_length};

use crate::checks::{check, head};
use crate::kinds::FrameKind;
use crate::limits::{FRAME_BYTES, MAX_FRAME_BYTES};
use std::alloc::AllocError;

/// Appends a frame that is to stand at the place `at` of the file with this number and of the frame's kind of file.
/// Want of memory is the answer too where the frame would be longer than `MAX_FRAME_BYTES`.
#[tactic(auto, unfolding(crate::specs::Frame::frame_bytes))]
pub fn write_frame(
    out: &mut Vec<u8>,
    number: u32,
    at: u64,
    kind: FrameKind,
    body: &[u8],
) -> Result<(), AllocError>
    ensures written { OnOk result (out.new.items ≡ out.old.items ++ frame_bytes number at kind body.now) }
    ensures short { OnOk result (frame_length (length body.now) < 2 ^ 32) }
    ensures err { OnErr result (out.new.items ≡ out.old.items) }

    // Where there is room for a frame that is not too long, it succeeds, and room never shrinks.
    ensures room { vec_len out.old + frame_length (length body.now) ≤ vec_capacity out.old →
        frame_length (length body.now) < 2 ^ 32 → IsOk result }
    ensures capacity { vec_capacity out.old ≤ vec_capacity out.new }
{
    if body.len() > MAX_FRAME_BYTES - FRAME_BYTES {
        return Err(AllocError);
    }
    out.reserve(body.len() + FRAME_BYTES)?;
    out.extend_from_slice(&head(kind, body.len() as u32))
        .unwrap();
    out.extend_from_slice(body).unwrap();
    out.extend_from_slice(&check(number, at, kind, body))
        .unwrap();
    Ok(())
}
