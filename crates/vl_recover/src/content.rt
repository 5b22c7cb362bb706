// What stands behind a log's header, frame by frame.
ghost use Rattle.std.specs.Prelude.{◌≡◌, ◌+◌, ◌++◌, ◌<◌, ◌^◌, true, length, map, reverse, IfOk};
ghost use Rattle.vl_recover.specs.opening.ReadLogs.{HasFrameMore, HasNothing, IsContent, entries_in, entry_of};

use crate::count::count_on;
use crate::found::Content;
use std::alloc::{AllocError, Global};
use vl_model::{Body, Change, Entry};
use vl_seglog::{Frame, LOG_HEADER_BYTES, ReadRecord, Said, read_next};

/// What the bytes say that stand behind the header of a log of this format with this number. The commit before them has
/// this number. One frame at a time is in memory beside the entries.
pub fn read_content(
    alloc: Global,
    format: u32,
    bytes: &[u8],
    number: u32,
    before: u64,
) -> Result<Content, AllocError>
    requires { 16 + length bytes.now < 2 ^ 64 }
    ensures { IfOk result (IsContent format number before bytes.now) }
{
    let mut content = no_content(alloc, LOG_HEADER_BYTES as u64, before);
    let mut rest = bytes;
    loop {
        match read_next(alloc, format, rest, number, content.end)? {
            None => return Ok(content),
            Some((frame, after)) => {
                content = with_frame(content, frame)?;
                rest = after;
            }
        }
    }
}

/// No frames, where the content of a log ends at this place.
pub fn no_content(alloc: Global, end: u64, before: u64) -> Content
    ensures { HasNothing end before result }
{
    Content {
        end,
        count: Ok(before),
        has_frames: false,
        entries: Vec::new(alloc),
    }
}

// With a frame more.
fn with_frame(content: Content, frame: Frame) -> Result<Content, AllocError>
    requires { frame.place + frame.length < 2 ^ 64 }
    ensures { IfOk result (HasFrameMore content frame) }
{
    let count = count_on(content.count, &frame);
    let end = frame.place + frame.length;
    let entries = with_said(content.entries, frame.said)?;
    Ok(Content {
        end,
        count,
        has_frames: true,
        entries,
    })
}

fn with_said(entries: Vec<Entry>, said: Said) -> Result<Vec<Entry>, AllocError>
    ensures { IfOk result (λ all. all.items ≡ entries.items ++ reverse (entries_in said)) }
{
    match said {
        Said::Commit(commit) => with_records(entries, commit.records),
        Said::Moves(records) => with_records(entries, records),
    }
}

// With the entries of these records, the last one's first.
fn with_records(entries: Vec<Entry>, records: Vec<ReadRecord>) -> Result<Vec<Entry>, AllocError>
    ensures { IfOk result (λ all. all.items ≡ entries.items ++ reverse (map entry_of records.items)) }
{
    let mut all = entries;
    let mut left = records;
    while let Some(record) = left.pop() {
        all.push(entry_for(record))?;
    }
    Ok(all)
}

fn entry_for(read: ReadRecord) -> Entry
    ensures { result ≡ entry_of read }
{
    let ReadRecord {
        key,
        version,
        change,
        pointer,
    } = read;
    let body = match change {
        Change::Set(value) => Body::Logged(value, pointer),
        Change::Delete => Body::Gone,
    };
    Entry { key, version, body }
}
