//! What a manifest's bytes say.

ghost use Rattle.std.specs.Prelude.{◌↔◌, ◌+◌, ◌-◌, ◌≤◌, IfNone, IfOk, IfSome, IsTrue, length};
ghost use Rattle.vl_manifest.specs.Manifest.{HasHeader, HasNoHeader, IsReadable};
ghost use Rattle.vl_manifest.specs.Reading.{AnswersSo, GoesOnSo};

use crate::fails::StateFail;
use crate::frames::behind_header;
use crate::manifest_log::ManifestLog;
use crate::reader::read_edits;
use crate::state::ManifestState;
use std::alloc::{AllocError, Global};
use vl_frame::{FileKind, HEADER_BYTES, read_header};
use vl_model::MANIFEST_FORMAT;

// Where a manifest's first frame stands, in bytes.
pub(crate) const FIRST_FRAME: u64 = HEADER_BYTES as u64;

impl ManifestLog {
    /// Whether the bytes are those of the manifest with this number, as far as its header and its first frame go. Of
    /// all that are so the one with the greatest number counts.
    pub fn is_readable(alloc: Global, bytes: &[u8], number: u32) -> Result<bool, AllocError>
        ensures { IfOk result (λ readable. IsTrue readable ↔ IsReadable number bytes.now) }
    {
        let Some(format) = format_of(bytes, number) else {
            return Ok(false);
        };
        let Some(_) = read_edits(alloc, behind_header(bytes), format, number, FIRST_FRAME)? else {
            return Ok(false);
        };
        Ok(true)
    }

    /// The state that the frames of the manifest with this number make, or the place of the first damage.
    pub fn read(alloc: Global, bytes: &[u8], number: u32) -> Result<ManifestState, StateFail>
        ensures { AnswersSo number bytes.now result }
    {
        let Some(format) = format_of(bytes, number) else {
            return Err(StateFail::Damaged { place: 0 });
        };
        let frames = behind_header(bytes);
        let Some((edits, rest)) = read_edits(alloc, frames, format, number, FIRST_FRAME)? else {
            return Err(StateFail::Damaged { place: FIRST_FRAME });
        };
        let Some(state) = ManifestState::first(alloc, &edits)? else {
            return Err(StateFail::Damaged { place: FIRST_FRAME });
        };
        let last = read_on(alloc, frames, rest, format, number, state)?;
        Ok(last.as_read(format))
    }
}

// The format in a manifest's header, which is right.
pub(crate) fn format_of(bytes: &[u8], number: u32) -> Option<u32>
    ensures found { IfSome result (λ format. HasHeader format number bytes.now) }
    ensures none { IfNone result (HasNoHeader number bytes.now) }
    ensures long { IfSome result (λ _. HEADER_BYTES ≤ length bytes.now) }
{
    read_header(bytes, FileKind::Manifest, number, MANIFEST_FORMAT)
}

// The state behind the rest of a manifest's frames, from the state before it.
fn read_on(
    alloc: Global,
    frames: &[u8],
    rest: &[u8],
    format: u32,
    number: u32,
    state: ManifestState,
) -> Result<ManifestState, StateFail>
    requires { length rest.now ≤ length frames.now }
    ensures { GoesOnSo format number (FIRST_FRAME + (length frames.now - length rest.now)) rest.now state result }
{
    let mut latest = state;
    let mut left = rest;
    'frames: loop {
        let place = FIRST_FRAME + (frames.len() - left.len()) as u64;
        let Some((edits, after)) = read_edits(alloc, left, format, number, place)? else {
            return Ok(latest);
        };
        let Some(next) = latest.next(&edits)? else {
            return Err(StateFail::Damaged { place });
        };
        latest = next;
        left = after;
    }
}
