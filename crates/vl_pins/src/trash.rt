// Retired files in the order of their retirement.
ghost use Rattle.std.specs.Prelude.{◌≡◌, ◌≤◌, ◌<◌, true, [], length, take, get_or};
ghost use Rattle.std.specs.List.{filter};
ghost use Rattle.vl_pins.specs.Files.{is_up_to};

use crate::RetiredFile;
use std::collections::VecDeque;

pub type Trash<L> = VecDeque<RetiredFile<L>>;

/// The place of the first that was retired at this number or below it, and how many there are where none was.
pub fn place_up_to<L>(files: &Trash<L>, bound: u64) -> usize
    ensures within { result ≤ length files.now.items }
    ensures held { filter (is_up_to bound) (take result files.now.items) ≡ [] }
    ensures free { (d : RetiredFile L) → result < length files.now.items → is_up_to bound (get_or files.now.items result d) ≡ true }
{
    let mut at = 0;
    while let Some(file) = files.get(at) {
        if file.epoch <= bound {
            return at;
        }
        at += 1;
    }
    at
}
