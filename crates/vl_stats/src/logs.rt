// Logs by rising numbers, each with its length in bytes.
ghost use Rattle.std.specs.Prelude.{◌≡◌, ◌≤◌, ◌<◌, ◌+◌, IfOk, map, vec_len, vec_capacity};
ghost use Rattle.std.specs.FinMap.{put};
ghost use Rattle.std.specs.List.{filter};
ghost use Rattle.std.specs.Ordering.{nat_cmp};
ghost use Rattle.vl_engine_model.specs.Rulings.Stats.{told};
ghost use Rattle.vl_stats.specs.Places.{IsPlaceOf};
ghost use Rattle.vl_stats.specs.Tallies.{share_by, stat_by, stays};

use crate::LiveBytes;
use std::alloc::{AllocError, Global};
use vl_engine_model::SegmentStat;

pub type Logs = Vec<(u32, u64)>;

// A log begins with a header of so many bytes, of which no record takes any.
const LOG_HEADER_BYTES: u64 = 16;

// How many logs in front are below a number.
fn place_of(logs: &[(u32, u64)], number: u32) -> usize
    ensures { IsPlaceOf logs.now number result }
{
    let mut at = 0;
    while let Some(log) = logs.get(at) {
        if number <= log.0 {
            return at;
        }
        at += 1;
    }
    at
}

// With a log more, for which there is room. One of its number gets its length.
pub fn put_log(logs: &mut Logs, log: (u32, u64))
    requires { vec_len logs.old < vec_capacity logs.old }
    ensures logs { logs.new.items ≡ put nat_cmp log.0 log.1 logs.old.items }
    ensures length { vec_len logs.new ≤ vec_len logs.old + 1 }
    ensures capacity { vec_capacity logs.old ≤ vec_capacity logs.new }
{
    let at = place_of(logs, log.0);
    if at < logs.len() && logs[at].0 == log.0 {
        logs[at] = log;
    } else {
        let _ = logs.insert(at, log);
    }
}

// Whether a log stays behind a switch: it isn't below head, or some of it is live.
fn does_stay(live: &LiveBytes, head: u32, log: (u32, u64)) -> bool
    ensures { result ≡ stays head live.now log }
{
    !(log.0 < head && live.live(log.0) == 0)
}

// Without the logs that a switch retires.
pub fn retain(logs: &mut Logs, live: &LiveBytes, head: u32)
    ensures logs { logs.new.items ≡ filter (stays head live.now) logs.old.items }
    ensures length { vec_len logs.new ≤ vec_len logs.old }
    ensures capacity { vec_capacity logs.new ≡ vec_capacity logs.old }
{
    logs.retain(|log| does_stay(live, head, *log));
}

// What is told of a log: a number past 64 bits as the greatest that they hold.
fn stat(live: &LiveBytes, log: (u32, u64)) -> SegmentStat
    ensures { result ≡ told (stat_by live.now log) }
{
    SegmentStat {
        segment: log.0,
        bytes: log.1.saturating_sub(LOG_HEADER_BYTES),
        live: u64::try_from(live.live(log.0)).unwrap_or(u64::MAX),
    }
}

pub fn stats_of(
    alloc: Global,
    live: &LiveBytes,
    logs: &[(u32, u64)],
) -> Result<Vec<SegmentStat>, AllocError>
    ensures { IfOk result (λ stats. stats.items ≡ map (λ log. told (stat_by live.now log)) logs.now) }
{
    let mut stats = Vec::with_capacity(alloc, logs.len())?;
    for log in logs {
        stats.push(stat(live, *log))?;
    }
    Ok(stats)
}

// The same with no more live than there is: its share of garbage is what counts.
pub fn share(live: &LiveBytes, log: (u32, u64)) -> SegmentStat
    ensures { result ≡ share_by live.now log }
{
    let bytes = log.1.saturating_sub(LOG_HEADER_BYTES);
    let live = u64::try_from(live.live(log.0)).unwrap_or(bytes).min(bytes);
    SegmentStat {
        segment: log.0,
        bytes,
        live,
    }
}
