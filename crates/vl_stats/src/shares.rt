ghost use Rattle.std.specs.Prelude.{◌≡◌, ◌&&◌, nat_lt, if◌then◌else◌, map};
ghost use Rattle.std.specs.List.{filter};
ghost use Rattle.std.specs.Option.{option_map};
ghost use Rattle.vl_engine_model.specs.Garbage.{best_of, better_of, is_worth};
ghost use Rattle.vl_stats.specs.Tallies.{share_by};

use crate::LiveBytes;
use crate::logs::share;
use vl_engine_model::SegmentStat;

/// Of the logs below head with at least so many per cent of garbage the one with the greatest share of it, of several the
/// one with the least number. None where none has so much.
pub fn best_below(
    live: &LiveBytes,
    logs: &[(u32, u64)],
    percent: u8,
    head: u32,
) -> Option<SegmentStat>
    ensures { result ≡ best_of (filter (is_worth percent) (map (share_by live.now)
        (filter (λ log. nat_lt log.0 head) logs.now))) }
{
    let mut best = None;
    let mut at = logs.len();
    while at > 0 {
        at -= 1;
        best = better_log(live, logs[at], percent, head, best);
    }
    best
}

// The better one of a log and the best so far, where it is below head and has so much garbage.
fn better_log(
    live: &LiveBytes,
    log: (u32, u64),
    percent: u8,
    head: u32,
    best: Option<SegmentStat>,
) -> Option<SegmentStat>
    ensures { result ≡ (if nat_lt log.0 head && is_worth percent (share_by live.now log)
        then better_of (share_by live.now log) best else best) }
{
    let stat = share(live, log);
    if log.0 < head && stat.is_worth(percent) {
        Some(better(stat, best))
    } else {
        best
    }
}

// The better one of a segment and the best so far.
fn better(stat: SegmentStat, best: Option<SegmentStat>) -> SegmentStat
    ensures { Some result ≡ better_of stat best }
{
    match best {
        Some(other) if !stat.is_better(&other) => other,
        _ => stat,
    }
}

/// Its number.
pub fn segment_of(best: Option<SegmentStat>) -> Option<u32>
    ensures { result ≡ option_map (λ x. x.segment) best }
{
    match best {
        Some(stat) => Some(stat.segment),
        None => None,
    }
}
