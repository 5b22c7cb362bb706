//! How edits are spelled.

ghost use Rattle.std.specs.Prelude.{◌≡◌, ◌++◌, ◌<◌, ◌^◌, length, IfOk, OnErr, OnOk};
ghost use Rattle.vl_frame.specs.Frame.{frame_length};
ghost use Rattle.vl_frame.specs.Runs.{item_frame};
ghost use Rattle.vl_manifest.specs.Grammar.{edits_grammar};
ghost use Rattle.vl_manifest.specs.Edits as spelling;
ghost use Rattle.vl_model.specs.Formats.{manifest_format};
ghost use Rattle.vl_manifest.specs.declared.edit.Edit.TheVariants as kinds;
ghost use Rattle.byteorder.specs.Endian.{big_bytes};

use crate::edit::{ADD, DROP, Edit, GONE, HEAD, KEEP, NEXT};
use byteorder::{BigEndian, ByteOrder};
use std::alloc::{AllocError, Global};
use vl_frame::{FrameKind, write_frame};

/// Appends the frame of these edits, in the format that is written, which is to stand at the place `at` of the manifest
/// with this number. Want of memory is the answer too where there are more edits than can be counted, or the frame is
/// longer than one may be.
pub fn write_edits(
    alloc: Global,
    out: &mut Vec<u8>,
    number: u32,
    at: u64,
    edits: &[Edit],
) -> Result<(), AllocError>
    ensures written { OnOk result (out.new.items ≡ out.old.items ++ item_frame (edits_grammar manifest_format) number at edits.now) }
    ensures short { OnOk result (frame_length (length (spelling.edits_body edits.now)) < 2 ^ 32) }
    ensures lawful { OnOk result (spelling.AreEdits manifest_format edits.now) }
    ensures err { OnErr result (out.new.items ≡ out.old.items) }
{
    let body = edits_body(alloc, edits)?;
    write_frame(out, number, at, FrameKind::Edits, &body)
}

// The body of a frame: the count of the edits in four bytes, and the edits.
fn edits_body(alloc: Global, edits: &[Edit]) -> Result<Vec<u8>, AllocError>
    ensures written { IfOk result (λ body. body.items ≡ spelling.edits_body edits.now) }
    ensures lawful { OnOk result (spelling.AreEdits manifest_format edits.now) }
{
    if edits.len() > u32::MAX as usize {
        return Err(AllocError);
    }
    let mut body = Vec::new(alloc);
    body.extend_from_slice(&count_bytes(edits.len() as u32))?;
    for edit in edits {
        write_edit(&mut body, edit)?;
    }
    Ok(body)
}

fn count_bytes(count: u32) -> [u8; 4]
    ensures { result ≡ big_bytes 4 count }
{
    let mut bytes = [0; 4];
    BigEndian::write_u32(&mut bytes, count);
    bytes
}

// Appends an edit.
fn write_edit(out: &mut Vec<u8>, edit: &Edit) -> Result<(), AllocError>
    ensures written { OnOk result (out.new.items ≡ out.old.items ++ spelling.edit_bytes edit.now) }
    ensures fits { OnOk result (spelling.IsEdit manifest_format edit.now) }
{
    match *edit {
        Edit::Add {
            level,
            position,
            table,
        } => out.extend_from_slice(&add_bytes(level, position, table)),
        Edit::Drop { table } => out.extend_from_slice(&drop_bytes(table)),
        Edit::Head { segment, number } => out.extend_from_slice(&head_bytes(segment, number)),
        Edit::Next { log, table } => out.extend_from_slice(&next_bytes(log, table)),
        Edit::Keep { versions, since } => out.extend_from_slice(&keep_bytes(versions, since)),
        Edit::Gone { number } => out.extend_from_slice(&gone_bytes(number)),
    }
}

fn add_bytes(level: u8, position: u32, table: u32) -> [u8; 10]
    ensures bytes { result ≡ spelling.edit_bytes (kinds.Add level position table) }
    ensures fits { spelling.IsEdit manifest_format (kinds.Add level position table) }
{
    let mut bytes = [0; 10];
    bytes[0] = ADD;
    bytes[1] = level;
    BigEndian::write_u32(&mut bytes[2..], position);
    BigEndian::write_u32(&mut bytes[6..], table);
    bytes
}

fn drop_bytes(table: u32) -> [u8; 5]
    ensures bytes { result ≡ spelling.edit_bytes (kinds.Drop table) }
    ensures fits { spelling.IsEdit manifest_format (kinds.Drop table) }
{
    let mut bytes = [0; 5];
    bytes[0] = DROP;
    BigEndian::write_u32(&mut bytes[1..], table);
    bytes
}

fn head_bytes(segment: u32, number: u64) -> [u8; 13]
    ensures bytes { result ≡ spelling.edit_bytes (kinds.Head segment number) }
    ensures fits { spelling.IsEdit manifest_format (kinds.Head segment number) }
{
    let mut bytes = [0; 13];
    bytes[0] = HEAD;
    BigEndian::write_u32(&mut bytes[1..], segment);
    BigEndian::write_u64(&mut bytes[5..], number);
    bytes
}

fn next_bytes(log: u32, table: u32) -> [u8; 9]
    ensures bytes { result ≡ spelling.edit_bytes (kinds.Next log table) }
    ensures fits { spelling.IsEdit manifest_format (kinds.Next log table) }
{
    let mut bytes = [0; 9];
    bytes[0] = NEXT;
    BigEndian::write_u32(&mut bytes[1..], log);
    BigEndian::write_u32(&mut bytes[5..], table);
    bytes
}

fn keep_bytes(versions: u8, since: u64) -> [u8; 10]
    ensures bytes { result ≡ spelling.edit_bytes (kinds.Keep versions since) }
    ensures fits { spelling.IsEdit manifest_format (kinds.Keep versions since) }
{
    let mut bytes = [0; 10];
    bytes[0] = KEEP;
    bytes[1] = versions;
    BigEndian::write_u64(&mut bytes[2..], since);
    bytes
}

fn gone_bytes(number: u64) -> [u8; 9]
    ensures bytes { result ≡ spelling.edit_bytes (kinds.Gone number) }
    ensures fits { spelling.IsEdit manifest_format (kinds.Gone number) }
{
    let mut bytes = [0; 9];
    bytes[0] = GONE;
    BigEndian::write_u64(&mut bytes[1..], number);
    bytes
}
