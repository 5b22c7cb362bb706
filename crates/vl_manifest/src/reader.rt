//! How edits are read. A body that isn't spelled exactly, to its last byte, is none, and neither is one with an edit
//! that the manifest's format doesn't have.

ghost use Rattle.std.specs.Prelude.{◌≡◌, ◌++◌, ◌∷◌, ◌<◌, ◌≤◌, ◌^◌, List, length, ℕ, IfNone, IfOk, IfSome};
ghost use Rattle.vl_frame.specs.Runs.{StandsAt, StandsNone};
ghost use Rattle.vl_manifest.specs.Grammar.{edits_grammar};
ghost use Rattle.vl_manifest.specs.Edits.{AreEdits, IsEdit, edit_bytes, edits_body};
ghost use Rattle.vl_manifest.specs.Formats.{gone_format, keep_format};
ghost use Rattle.vl_manifest.specs.Reading.{IsRun};
ghost use Rattle.vl_manifest.specs.declared.edit.Edit.{Edit};

use crate::edit::{ADD, DROP, Edit, GONE, HEAD, KEEP, NEXT};
use crate::format::{GONE_FORMAT, KEEP_FORMAT};
use std::alloc::{AllocError, Global};
use vl_frame::{FileKind, read_frame, take_u8, take_u32, take_u64};

/// The edits whose frame stands at the front of the bytes, which are those of the manifest in this format with this
/// number from the place `at` on, and the bytes behind the frame.
pub fn read_edits(
    alloc: Global,
    bytes: &[u8],
    format: u32,
    number: u32,
    at: u64,
) -> Result<Option<(Vec<Edit>, &[u8])>, AllocError>
    ensures found { IfOk result (λ read. IfSome read
        (λ r. StandsAt (edits_grammar format) number at bytes.now r.0.items r.1.now)) }

    // None is found only where none stands.
    ensures none { IfOk result (λ read. IfNone read (StandsNone (edits_grammar format) number at bytes.now)) }
{
    let Some(frame) = read_frame(bytes, FileKind::Manifest, number, at) else {
        return Ok(None);
    };
    match read_body(alloc, format, frame.body)? {
        None => Ok(None),
        Some(edits) => Ok(Some((edits, &bytes[frame.length as usize..]))),
    }
}

// The edits that the body of a frame spells.
fn read_body(alloc: Global, format: u32, body: &[u8]) -> Result<Option<Vec<Edit>>, AllocError>
    ensures found { IfOk result (λ read. IfSome read
        (λ v. AreEdits format v.items × (body.now ≡ edits_body v.items))) }
    ensures none { IfOk result (λ read. IfNone read
        ((edits : List Edit) → AreEdits format edits → body.now ≡ edits_body edits → ⊥)) }
{
    let Some((count, rest)) = take_u32(body) else {
        return Ok(None);
    };
    take_edits(alloc, format, count, rest)
}

// The edits that these bytes are, so many, one behind the other.
#[tactic(auto, using(crate::proofs::Taking::run_done))]
fn take_edits(
    alloc: Global,
    format: u32,
    count: u32,
    bytes: &[u8],
) -> Result<Option<Vec<Edit>>, AllocError>
    ensures found { IfOk result (λ read. IfSome read (λ v. IsRun format bytes.now count v.items)) }
    ensures none { IfOk result (λ read. IfNone read ((edits : List Edit) → IsRun format bytes.now count edits → ⊥)) }
{
    let mut edits = Vec::new(alloc);
    let mut rest = bytes;
    for _ in 0..count {
        match take_edit(format, rest) {
            None => return Ok(None),
            Some((edit, after)) => {
                edits.push(edit)?;
                rest = after;
            }
        }
    }
    if rest.is_empty() {
        Ok(Some(edits))
    } else {
        Ok(None)
    }
}

// The edit at the front, and the bytes behind it.
fn take_edit(format: u32, bytes: &[u8]) -> Option<(Edit, &[u8])>
    ensures found { IfSome result (λ r. bytes.now ≡ edit_bytes r.0 ++ r.1.now) }
    ensures fits { IfSome result (λ r. IsEdit format r.0) }
    ensures none { IfNone result
        ((edit : Edit) (rest : List ℕ) → IsEdit format edit → bytes.now ≡ edit_bytes edit ++ rest → ⊥) }
{
    let (tag, rest) = take_u8(bytes)?;
    match tag {
        ADD => take_add(format, rest),
        DROP => take_drop(format, rest),
        HEAD => take_head(format, rest),
        NEXT => take_next(format, rest),
        KEEP => take_keep(format, rest),
        GONE => take_gone(format, rest),
        _ => None,
    }
}

// The numbers of an Add behind its tag.
fn take_add(format: u32, bytes: &[u8]) -> Option<(Edit, &[u8])>
    ensures found { IfSome result (λ r. ADD ∷ bytes.now ≡ edit_bytes r.0 ++ r.1.now) }
    ensures fits { IfSome result (λ r. IsEdit format r.0) }
    ensures none { IfNone result (length bytes.now < 9) }
{
    let (level, rest) = take_u8(bytes)?;
    let (position, rest) = take_u32(rest)?;
    let (table, rest) = take_u32(rest)?;
    let edit = Edit::Add {
        level,
        position,
        table,
    };
    Some((edit, rest))
}

fn take_drop(format: u32, bytes: &[u8]) -> Option<(Edit, &[u8])>
    ensures found { IfSome result (λ r. DROP ∷ bytes.now ≡ edit_bytes r.0 ++ r.1.now) }
    ensures fits { IfSome result (λ r. IsEdit format r.0) }
    ensures none { IfNone result (length bytes.now < 4) }
{
    let (table, rest) = take_u32(bytes)?;
    Some((Edit::Drop { table }, rest))
}

fn take_head(format: u32, bytes: &[u8]) -> Option<(Edit, &[u8])>
    ensures found { IfSome result (λ r. HEAD ∷ bytes.now ≡ edit_bytes r.0 ++ r.1.now) }
    ensures fits { IfSome result (λ r. IsEdit format r.0) }
    ensures none { IfNone result (length bytes.now < 12) }
{
    let (segment, rest) = take_u32(bytes)?;
    let (number, rest) = take_u64(rest)?;
    Some((Edit::Head { segment, number }, rest))
}

fn take_next(format: u32, bytes: &[u8]) -> Option<(Edit, &[u8])>
    ensures found { IfSome result (λ r. NEXT ∷ bytes.now ≡ edit_bytes r.0 ++ r.1.now) }
    ensures fits { IfSome result (λ r. IsEdit format r.0) }
    ensures none { IfNone result (length bytes.now < 8) }
{
    let (log, rest) = take_u32(bytes)?;
    let (table, rest) = take_u32(rest)?;
    Some((Edit::Next { log, table }, rest))
}

// Formats before KEEP_FORMAT have no Keep.
fn take_keep(format: u32, bytes: &[u8]) -> Option<(Edit, &[u8])>
    ensures found { IfSome result (λ r. KEEP ∷ bytes.now ≡ edit_bytes r.0 ++ r.1.now) }
    ensures fits { IfSome result (λ r. IsEdit format r.0) }
    ensures none { IfNone result (keep_format ≤ format → length bytes.now < 9) }
{
    if format < KEEP_FORMAT {
        return None;
    }
    let (versions, rest) = take_u8(bytes)?;
    let (since, rest) = take_u64(rest)?;
    Some((Edit::Keep { versions, since }, rest))
}

// Formats before GONE_FORMAT have no Gone.
fn take_gone(format: u32, bytes: &[u8]) -> Option<(Edit, &[u8])>
    ensures found { IfSome result (λ r. GONE ∷ bytes.now ≡ edit_bytes r.0 ++ r.1.now) }
    ensures fits { IfSome result (λ r. IsEdit format r.0) }
    ensures none { IfNone result (gone_format ≤ format → length bytes.now < 8) }
{
    if format < GONE_FORMAT {
        return None;
    }
    let (number, rest) = take_u64(bytes)?;
    Some((Edit::Gone { number }, rest))
}
