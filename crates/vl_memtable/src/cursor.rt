ghost use Rattle.std.specs.Prelude.{◌≡◌, ◌≤◌, length};
ghost use Rattle.vl_model.specs.EntryOrder.{along, between};

use crate::Run;
use std::alloc::AllocError;
use std::marker::Model;
use vl_model::{Cursor, Entry, Way};

/// Entries of a run, one after the other. Each that it gives shares its bytes with the run's.
/// Clauses see the entries that are left.
#[derive(Drop)]
pub struct RunCursor {
    run: Run,
    way: Way,
    // It goes over the entries from `first` on and before `end`, of which so many were given.
    first: usize,
    end: usize,
    given: usize,
}

impl Model for RunCursor {
    ghost use Rattle.std.specs.Prelude.{List, ◌≤◌, drop, length};
    ghost use Rattle.vl_model.specs.declared.entry.Entry.{Entry};
    ghost use Rattle.vl_model.specs.EntryOrder.{along, between};

    ghost Value = { List Entry };

    ghost view = { λ c. drop c.given (along c.way (between c.first c.end c.run)) };

    ghost invariant = { λ c. (c.first ≤ c.end) × (c.end ≤ length c.run) };
}

impl Cursor for RunCursor {
    ghost use Rattle.std.specs.Prelude.{Some, length, false};

    type Fault = AllocError;

    type Reader = ();

    ghost left = { λ c. Some c };

    ghost budget = { λ c. length c };

    ghost faults = { λ _. 0 };

    ghost is_read_fault = { λ _. false };

    ghost may_fail = { λ _ _. Unit {0} };

    ghost stands_to = { λ _ _. Unit {0} };

    fn next(&mut self, _: &mut ()) -> Result<Option<Entry>, AllocError> {
        let entries = part(&self.run, self.first, self.end);
        if self.given >= entries.len() {
            return Ok(None);
        }
        let at = match self.way {
            Way::Up => self.given,
            Way::Down => entries.len() - 1 - self.given,
        };
        let entry = entries[at].share()?;
        self.given += 1;
        Ok(Some(entry))
    }
}

impl RunCursor {
    /// A cursor over the entries of a run from an index on and before another.
    pub fn between(run: Run, first: usize, end: usize, way: Way) -> Self
        requires { (first ≤ end) × (end ≤ length run) }
        ensures { result ≡ along way (between first end run) }
    {
        RunCursor {
            run,
            way,
            first,
            end,
            given: 0,
        }
    }
}

// The entries of a run from an index on and before another.
fn part(run: &Run, first: usize, end: usize) -> &[Entry]
    requires { (first ≤ end) × (end ≤ length run.now) }
    ensures { result.now ≡ between first end run.now }
{
    &run.as_slice()[first..end]
}
