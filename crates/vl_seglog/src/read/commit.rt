ghost use Rattle.std.specs.Prelude.{◌≡◌, ◌+◌, ◌++◌, ◌<◌, ◌^◌, length, IfNone, IfOk, IfSome};
ghost use Rattle.vl_seglog.specs.Commit as spelling;
ghost use Rattle.vl_seglog.specs.Placed.{AreCommitted};
ghost use Rattle.vl_seglog.specs.Reading.{commit_of};

use crate::frame::Commit;
use crate::lengths::COMMIT_HEAD_BYTES;
use crate::read::order::is_rising;
use crate::read::records::read_records;
use std::alloc::{AllocError, Global};
use vl_frame::{take_u32, take_u64};
use vl_model::MAX_COMMIT_NUMBER;

/// The commit that the body of a frame spells, which begins at this place of the log of this format.
pub fn read_commit(
    alloc: Global,
    format: u32,
    body: &[u8],
    log: u32,
    place: u64,
) -> Result<Option<Commit>, AllocError>
    requires short { length body.now < 2 ^ 32 }
    requires fits { place + length body.now < 2 ^ 64 }
    ensures found { IfOk result (λ read. IfSome read
        (λ c. spelling.IsCommit format (commit_of c) × (body.now ≡ spelling.commit_body format (commit_of c)))) }
    ensures places { IfOk result (λ read. IfSome read (λ c. AreCommitted format log (place + 12) c)) }
    ensures none { IfOk result (λ read. IfNone read
        ((c : spelling.Commit) → spelling.IsCommit format c → body.now ≡ spelling.commit_body format c → ⊥)) }
{
    let Some((number, count, rest)) = take_head(body) else {
        return Ok(None);
    };
    if number == 0 || number > MAX_COMMIT_NUMBER || count == 0 {
        return Ok(None);
    }
    let first = place + COMMIT_HEAD_BYTES as u64;
    let Some(records) = read_records(alloc, format, count, rest, log, first, number)? else {
        return Ok(None);
    };
    if !is_rising(&records) {
        return Ok(None);
    }
    Ok(Some(Commit { number, records }))
}

// The numbers before the records, and the bytes behind them.
fn take_head(bytes: &[u8]) -> Option<(u64, u32, &[u8])>
    ensures found { IfSome result (λ r. bytes.now ≡ spelling.head_bytes r.0 r.1 ++ r.2.now) }
    ensures fits { IfSome result (λ r. (r.0 < 2 ^ 64) × (r.1 < 2 ^ 32)) }
    ensures none { IfNone result (length bytes.now < 12) }
{
    let (number, rest) = take_u64(bytes)?;
    let (count, rest) = take_u32(rest)?;
    Some((number, count, rest))
}
