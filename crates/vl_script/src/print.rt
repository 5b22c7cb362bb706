ghost use Rattle.std.specs.Prelude.{◌≡◌, ◌+◌, ◌≤◌, ◌++◌, ◌∷◌, ℕ, [], codes, length, vec_capacity};
ghost use Rattle.std.specs.Prelude.{IsOk, IfOk, OnOk};
ghost use Rattle.std.specs.Fmt.{decimal};
ghost use Rattle.vl_script.specs.Script.{bytes_text, counter_text, row_text, rows_text, segment_text, segments_text, text_of};
ghost use Rattle.vl_script.specs.declared.answer.Answer.TheVariants.{Conflict, Done, Found, FoundTagged, Moved, Number, Raced, Removed};

use crate::{Answer, SegmentLine};
use std::alloc::{AllocError, Global};
use vl_model::{Bytes, Counter, Key, Value};

/// The room, in bytes, that the text of an answer with a number takes at most.
pub const NUMBER_ROOM: usize = 29;

/// Appends what is printed for an answer: its text, and its line's end. Where memory is missing, some first bytes of it may
/// have been appended. What a line answers that changed files wants none where the text has `NUMBER_ROOM` left: a number, `ok`
/// alone, how many records were moved, and how many files were removed.
pub fn print_answer(alloc: Global, text: &mut Vec<u8>, answer: &Answer) -> Result<(), AllocError>
    ensures text { OnOk result (text.new.items ≡ text.old.items ++ text_of answer.now) }
    ensures room { (number : ℕ) → answer.now ≡ Number number
        → length text.old.items + NUMBER_ROOM ≤ vec_capacity text.old → IsOk result }
    ensures room_for_ok { answer.now ≡ Done → length text.old.items + NUMBER_ROOM ≤ vec_capacity text.old → IsOk result }
    ensures room_for_moved { (count : ℕ) → answer.now ≡ Moved count
        → length text.old.items + NUMBER_ROOM ≤ vec_capacity text.old → IsOk result }
    ensures room_for_removed { (count : ℕ) → answer.now ≡ Removed count
        → length text.old.items + NUMBER_ROOM ≤ vec_capacity text.old → IsOk result }
{
    match answer {
        Answer::Done => print_line(text, b"ok", b""),
        Answer::Number { number } => print_number(text, b"ok ", *number),
        Answer::Found { value } => print_value(alloc, text, value),
        Answer::FoundTagged { value } => print_tagged(alloc, text, value),
        Answer::Dropped { low } => print_number(text, b"dropped ", *low),
        Answer::Rows { rows } => print_rows(alloc, text, rows),
        Answer::NoValue => print_line(text, b"none", b""),
        Answer::Taken { name } => print_line(text, b"taken ", name.as_slice()),
        Answer::Unknown { name } => print_line(text, b"unknown ", name.as_slice()),
        Answer::ReadOnly => print_line(text, b"readonly", b""),
        Answer::Invalid => print_line(text, b"invalid", b""),
        Answer::TooBig => print_line(text, b"toobig", b""),
        Answer::TooMany => print_line(text, b"toomany", b""),
        Answer::Nothing => print_line(text, b"nothing", b""),
        Answer::Conflict { key, number } => print_conflict(alloc, text, key, *number),
        Answer::Full => print_line(text, b"full", b""),
        Answer::Idle => print_line(text, b"idle", b""),
        Answer::Raced { key } => print_raced(alloc, text, key),
        Answer::Exhausted { counter } => {
            print_line(text, b"exhausted ", counter_name(*counter).as_bytes())
        }
        Answer::Rejected { segment } => print_number(text, b"rejected ", u64::from(*segment)),
        Answer::NoRewrite => print_line(text, b"norewrite", b""),
        Answer::FoundRecords { count } => print_number(text, b"found ", *count),
        Answer::End => print_line(text, b"end", b""),
        Answer::Moved { count } => print_number(text, b"moved ", *count),
        Answer::Removed { count } => print_number(text, b"removed ", *count),
        Answer::Segments { segments } => print_segments(text, segments),
    }
}

// How many logs there are, and a line for each.
fn print_segments(text: &mut Vec<u8>, segments: &[SegmentLine]) -> Result<(), AllocError>
    ensures { OnOk result (text.new.items ≡ text.old.items ++ segments_text segments.now) }
{
    print_number(text, b"segments ", segments.len() as u64)?;
    for segment in segments {
        print_segment(text, segment)?;
    }
    Ok(())
}

fn print_segment(text: &mut Vec<u8>, segment: &SegmentLine) -> Result<(), AllocError>
    ensures { OnOk result (text.new.items ≡ text.old.items ++ segment_text segment.now) }
{
    push_number(text, b"segment ", u64::from(segment.segment))?;
    push_number(text, b" bytes ", segment.bytes)?;
    print_number(text, b" live ", segment.live)
}

// Without the line's end.
pub(crate) fn push_number(text: &mut Vec<u8>, front: &[u8], number: u64) -> Result<(), AllocError>
    ensures { OnOk result (text.new.items ≡ text.old.items ++ front.now ++ decimal number) }
{
    let mut digits = itoa::Buffer::new();
    text.extend_from_slice(front)?;
    text.extend_from_slice(digits.format(number).as_bytes())?;
    Ok(())
}

/// Appends how many rows there are, and a line for each, with its key and its value. Where memory is missing, some first bytes
/// of it may have been appended.
pub fn print_rows(
    alloc: Global,
    text: &mut Vec<u8>,
    rows: &[(Key, Value)],
) -> Result<(), AllocError>
    ensures { OnOk result (text.new.items ≡ text.old.items ++ rows_text rows.now) }
{
    print_number(text, b"rows ", rows.len() as u64)?;
    for (key, value) in rows {
        print_row(alloc, text, key, value)?;
    }
    Ok(())
}

/// Appends what is printed for a bad line, the first line being line 1. Where memory is missing, some first bytes of it may
/// have been appended.
pub fn print_bad_line(text: &mut Vec<u8>, number: u64) -> Result<(), AllocError>
    ensures { OnOk result (text.new.items ≡ text.old.items ++ codes "bad line " ++ decimal number ++ (10 ∷ [])) }
{
    print_number(text, b"bad line ", number)
}

pub(crate) fn print_number(text: &mut Vec<u8>, front: &[u8], number: u64) -> Result<(), AllocError>
    ensures text { OnOk result (text.new.items ≡ text.old.items ++ front.now ++ decimal number ++ (10 ∷ [])) }
    ensures room { length text.old.items + length front.now + 21 ≤ vec_capacity text.old → IsOk result }
{
    let mut digits = itoa::Buffer::new();
    print_line(text, front, digits.format(number).as_bytes())
}

fn print_value(alloc: Global, text: &mut Vec<u8>, value: &Value) -> Result<(), AllocError>
    ensures { OnOk result (text.new.items ≡ text.old.items ++ text_of (Found value.now)) }
{
    text.extend_from_slice(b"value ")?;
    push_bytes(alloc, text, &value.bytes)?;
    text.push(b'\n')?;
    Ok(())
}

// The value, and its tag.
fn print_tagged(alloc: Global, text: &mut Vec<u8>, value: &Value) -> Result<(), AllocError>
    ensures { OnOk result (text.new.items ≡ text.old.items ++ text_of (FoundTagged value.now)) }
{
    text.extend_from_slice(b"value ")?;
    push_bytes(alloc, text, &value.bytes)?;
    print_number(text, b" byte ", u64::from(value.tag))
}

fn print_row(alloc: Global, text: &mut Vec<u8>, key: &Key, value: &Value) -> Result<(), AllocError>
    ensures { OnOk result (text.new.items ≡ text.old.items ++ row_text (key.now, value.now)) }
{
    push_bytes(alloc, text, key)?;
    text.push(b' ')?;
    push_bytes(alloc, text, &value.bytes)?;
    text.push(b'\n')?;
    Ok(())
}

fn print_conflict(
    alloc: Global,
    text: &mut Vec<u8>,
    key: &Key,
    number: u64,
) -> Result<(), AllocError>
    ensures { OnOk result (text.new.items ≡ text.old.items ++ text_of (Conflict key.now number)) }
{
    text.extend_from_slice(b"conflict ")?;
    push_bytes(alloc, text, key)?;
    print_number(text, b" ", number)
}

fn print_raced(alloc: Global, text: &mut Vec<u8>, key: &Key) -> Result<(), AllocError>
    ensures { OnOk result (text.new.items ≡ text.old.items ++ text_of (Raced key.now)) }
{
    text.extend_from_slice(b"raced ")?;
    push_bytes(alloc, text, key)?;
    text.push(b'\n')?;
    Ok(())
}

// Both parts, and the line's end.
fn print_line(text: &mut Vec<u8>, front: &[u8], back: &[u8]) -> Result<(), AllocError>
    ensures text { OnOk result (text.new.items ≡ text.old.items ++ front.now ++ back.now ++ (10 ∷ [])) }
    ensures room { length text.old.items + length front.now + length back.now + 1 ≤ vec_capacity text.old → IsOk result }
{
    text.extend_from_slice(front)?;
    text.extend_from_slice(back)?;
    text.push(b'\n')?;
    Ok(())
}

fn push_bytes(alloc: Global, text: &mut Vec<u8>, bytes: &Bytes) -> Result<(), AllocError>
    ensures { OnOk result (text.new.items ≡ text.old.items ++ bytes_text bytes.now) }
{
    if bytes.is_empty() {
        text.push(b'-')?;
    } else {
        let digits = hex::encode(alloc, bytes.as_slice())?;
        text.extend_from_slice(digits.as_bytes())?;
    }
    Ok(())
}

fn counter_name(counter: Counter) -> &'static str
    ensures { result.now ≡ counter_text counter }
{
    match counter {
        Counter::Commit => "commit",
        Counter::Log => "log",
        Counter::Table => "table",
        Counter::Manifest => "manifest",
        Counter::Version => "version",
    }
}
