ghost use Rattle.std.specs.Prelude.{◌+◌, ◌<◌, ◌^◌, length, IfNone, IfOk, IfSome};
ghost use Rattle.vl_frame.specs.Runs.{StandsAt, StandsNone};
ghost use Rattle.vl_model.specs.declared.log_frame.LogFrame.{LogFrame};
ghost use Rattle.vl_seglog.specs.Frames.{frames_grammar};
ghost use Rattle.vl_seglog.specs.Placed.{IsFrameAt, RecordsLie};
ghost use Rattle.vl_seglog.specs.Reading.{Says, frame_of, said_of};

use crate::frame::{Frame, Said};
use crate::read::commit::read_commit;
use crate::read::moves::read_moves;
use std::alloc::{AllocError, Global};
use vl_frame::{FileKind, FrameKind, HEAD_BYTES, read_frame};

/// The frame at the front of the bytes, which are those of the log of this format with this number from the place `at`
/// on, and the bytes behind it.
pub fn read_next(
    alloc: Global,
    format: u32,
    bytes: &[u8],
    number: u32,
    at: u64,
) -> Result<Option<(Frame, &[u8])>, AllocError>
    requires { at + length bytes.now < 2 ^ 64 }
    ensures found { IfOk result (λ read. IfSome read (λ r.
        StandsAt (frames_grammar format) number at bytes.now (frame_of r.0) r.1.now)) }
    ensures place { IfOk result (λ read. IfSome read (λ r. IsFrameAt format number at r.0)) }

    // None is found only where none stands.
    ensures none { IfOk result (λ read. IfNone read (StandsNone (frames_grammar format) number at bytes.now)) }
{
    let Some(frame) = read_frame(bytes, FileKind::Log, number, at) else {
        return Ok(None);
    };
    let length = frame.length;
    let body_at = at + HEAD_BYTES as u64;
    match read_body(alloc, format, frame.kind, frame.body, number, body_at)? {
        None => Ok(None),
        Some(said) => Ok(Some((
            Frame {
                place: at,
                length,
                said,
            },
            &bytes[length as usize..],
        ))),
    }
}

// What a frame of this kind says with this body, which begins at this place of the log.
fn read_body(
    alloc: Global,
    format: u32,
    kind: FrameKind,
    body: &[u8],
    log: u32,
    place: u64,
) -> Result<Option<Said>, AllocError>
    requires short { length body.now < 2 ^ 32 }
    requires fits { place + length body.now < 2 ^ 64 }
    ensures found { IfOk result (λ read. IfSome read (λ s. Says format kind body.now (said_of s))) }
    ensures places { IfOk result (λ read. IfSome read (RecordsLie format log place)) }
    ensures none { IfOk result (λ read. IfNone read ((f : LogFrame) → Says format kind body.now f → ⊥)) }
{
    match kind {
        FrameKind::Commit => match read_commit(alloc, format, body, log, place)? {
            None => Ok(None),
            Some(commit) => Ok(Some(Said::Commit(commit))),
        },
        FrameKind::Move => match read_moves(alloc, format, body, log, place)? {
            None => Ok(None),
            Some(records) => Ok(Some(Said::Moves(records))),
        },
        _ => Ok(None),
    }
}
