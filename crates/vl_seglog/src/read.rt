//! Reading a log.

mod commit;
mod header;
mod moves;
mod next;
mod once;
mod order;
mod records;

ghost use Rattle.std.specs.Prelude.{◌≡◌, ◌≤◌, IfOk, drop, length, map};
ghost use Rattle.std.specs.Option.{ForSome};
ghost use Rattle.vl_frame.specs.Runs.{ReadsAs};
ghost use Rattle.vl_seglog.specs.Frames.{frames_end, frames_grammar};
ghost use Rattle.vl_seglog.specs.LogReading.{ReadsLog};
ghost use Rattle.vl_seglog.specs.Placed.{AreFramesFrom};
ghost use Rattle.vl_seglog.specs.Reading.{frame_of, reading_end, reading_of};

use crate::frame::Frame;
use crate::lengths::LOG_HEADER_BYTES;
pub use header::header_format;
pub use next::read_next;
use std::alloc::{AllocError, Global};
use vl_frame::{FileKind, read_header};
use vl_model::LOG_FORMAT;

/// What the bytes of a log say.
#[derive(Drop)]
pub struct LogRead {
    /// Of its file, which is the segment of its records' pointers too.
    pub number: u32,
    /// The format in the header that they begin with. None where they begin with no right one.
    pub header: Option<u32>,
    /// Those that stand one behind the other from byte 16 on, up to where none stands. None without the header.
    pub frames: Vec<Frame>,
    /// In bytes: where the frames end. 0 without the header.
    pub end: u64,
    /// Whether the bytes end there too.
    pub whole: bool,
}

/// What the bytes of the log with this number say.
pub fn read_log(alloc: Global, bytes: &[u8], number: u32) -> Result<LogRead, AllocError>
    ensures reads { IfOk result (λ read. ReadsLog number bytes.now (reading_of read)) }
    ensures end { IfOk result (λ read. read.end ≡ reading_end (reading_of read)) }
    ensures number { IfOk result (λ read. read.number ≡ number) }
    ensures places { IfOk result (λ read. ForSome read.header
        (λ format. AreFramesFrom format number 16 read.frames.items)) }
{
    let Some(format) = read_header(bytes, FileKind::Log, number, LOG_FORMAT) else {
        return Ok(LogRead {
            number,
            header: None,
            frames: Vec::new(alloc),
            end: 0,
            whole: false,
        });
    };
    let (frames, end) = read_frames(alloc, format, &bytes[LOG_HEADER_BYTES..], number)?;
    Ok(LogRead {
        number,
        header: Some(format),
        frames,
        end,
        whole: end == bytes.len() as u64,
    })
}

// The frames that these bytes begin with, which stand behind the header of a log of this format, and where they end in
// the file.
fn read_frames(
    alloc: Global,
    format: u32,
    bytes: &[u8],
    number: u32,
) -> Result<(Vec<Frame>, u64), AllocError>
    ensures frames { IfOk result (λ r. ReadsAs (frames_grammar format) number 16 bytes.now (map frame_of r.0.items)) }
    ensures end { IfOk result (λ r. r.1 ≡ frames_end format (map frame_of r.0.items)) }
    ensures places { IfOk result (λ r. AreFramesFrom format number 16 r.0.items) }
{
    let mut frames = Vec::new(alloc);
    let mut rest = bytes;
    loop {
        let at = (LOG_HEADER_BYTES + (bytes.len() - rest.len())) as u64;
        match read_next(alloc, format, rest, number, at)? {
            None => return Ok((frames, at)),
            Some((frame, after)) => {
                frames.push(frame)?;
                rest = after;
            }
        }
    }
}
