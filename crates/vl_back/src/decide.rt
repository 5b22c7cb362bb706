ghost use Rattle.std.specs.Prelude.{◌≡◌, ◌<◌, false, nat_le};
ghost use Rattle.vl_back.specs.Deciding.{MayFlush, MayRotate, flush_decision, numbers_decision, rotation_decision};
ghost use Rattle.vl_back.specs.declared.decision.Decision.TheVariants.{Go};
ghost use Rattle.vl_model.specs.Limits.{max_epoch};

use crate::{Back, Decision};
use vl_model::{Counter, MAX_EPOCH, MAX_FILE_NUMBER};

impl Back {
    /// What a flush comes to, where nothing has halted.
    pub fn decide_flush(&self) -> Decision
        ensures decided { result ≡ flush_decision self.now }
        ensures go { result ≡ Go → MayFlush self.now }
    {
        if self.waiting.is_empty() {
            return Decision::Idle;
        }
        self.decide_by_numbers(self.state.next_table, Counter::Table)
    }

    /// What a rotation comes to, where nothing has halted, of a log that has frames or has none.
    pub fn decide_rotation(&self, has_frames: bool) -> Decision
        ensures decided { result ≡ rotation_decision has_frames self.now }
        ensures go { result ≡ Go → MayRotate self.now }
    {
        if !has_frames {
            return Decision::Idle;
        }
        self.decide_by_numbers(self.next_log, Counter::Log)
    }

    /// Whether no epoch is left for a step that changes which files are used.
    pub fn has_no_epoch(&self) -> bool
        ensures tells { result ≡ nat_le max_epoch self.now.epoch }
        ensures left { result ≡ false → self.now.epoch < max_epoch }
    {
        self.epoch >= MAX_EPOCH
    }

    // By the number that the step would give to a file of this kind, and the epoch.
    fn decide_by_numbers(&self, next: u32, counter: Counter) -> Decision
        ensures { result ≡ numbers_decision next counter self.now.epoch }
    {
        if next > MAX_FILE_NUMBER {
            return Decision::Exhausted(counter);
        }
        if self.has_no_epoch() {
            return Decision::Exhausted(Counter::Version);
        }
        Decision::Go
    }
}
