// The commit numbers that logs give.
ghost use Rattle.std.specs.Prelude.{◌≡◌};
ghost use Rattle.vl_recover.specs.opening.Walk as walk;
ghost use Rattle.vl_recover.specs.opening.ReadLogs.{counted_frame_on, ended};
ghost use Rattle.vl_seglog.specs.Reading.{frame_of};

use vl_seglog::{Frame, Said};

/// The number of the last commit with one frame more, or the place of the first frame that has another number than the
/// next.
pub fn count_on(count: Result<u64, u64>, frame: &Frame) -> Result<u64, u64>
    ensures { result ≡ counted_frame_on count frame.now.place (frame_of frame.now) }
{
    count_frame(count?, frame)
}

fn count_frame(before: u64, frame: &Frame) -> Result<u64, u64>
    ensures { result ≡ walk.counted_frame before frame.now.place (frame_of frame.now) }
{
    match &frame.said {
        Said::Commit(commit) => {
            if before < commit.number && commit.number - before == 1 {
                Ok(commit.number)
            } else {
                Err(frame.place)
            }
        }
        Said::Moves(_) => Ok(before),
    }
}

/// The same of a whole log, whose content ends at this place. One that another follows has to end there.
pub fn count_end(count: Result<u64, u64>, end: u64, whole: bool, followed: bool) -> Result<u64, u64>
    ensures { result ≡ ended count end whole followed }
{
    let number = count?;
    if followed && !whole {
        return Err(end);
    }
    Ok(number)
}
