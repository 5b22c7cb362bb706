//! The lines of a benchmark, one after the other.

ghost use Rattle.std.specs.Prelude.{◌≡◌, IfOk, OnErr, OnOk, drop, slice_get};
ghost use Rattle.vl_script.specs.Generator.{bench_lines};

mod at;
mod line;

use crate::Line;
use at::At;
use std::alloc::{AllocError, Global};
use std::marker::Model;

/// The lines of a benchmark from a seed and a number of rounds. Each round is a transaction `t` with one write, of one of 1,024
/// keys and with up to 255 bytes. Every 64th also seals the log, flushes it, merges what is due as `j` and sweeps, and of these
/// every fourth also makes a pass `g` with eight batches. At the end a view `v` scans all rows, and `stats` tells of the logs.
///
/// It holds one line at a time. Clauses see the lines that it hasn't given yet.
#[derive(Drop)]
pub struct Gen {
    alloc: Global,
    at: At,
}

impl Model for Gen {
    ghost use Rattle.std.specs.Prelude.{List};
    ghost use Rattle.vl_script.specs.declared.line.Line.{Line};
    ghost use Rattle.vl_script.specs.Steps.{lines_at};

    ghost Value = { List Line };

    ghost view = { λ g. lines_at g.at };
}

impl Gen {
    pub fn new(alloc: Global, seed: u64, count: u32) -> Self
        ensures { result ≡ bench_lines seed count }
    {
        let at = At::behind(0, seed, count);
        Gen { alloc, at }
    }

    /// The next line, and `None` where all were given. Where it finds no memory, the same line comes again.
    pub fn next(&mut self) -> Result<Option<Line>, AllocError>
        ensures line { IfOk result (λ line. line ≡ slice_get self.old 0) }
        ensures rest { OnOk result (self.new ≡ drop 1 self.old) }
        ensures refused { OnErr result (self.new ≡ self.old) }
    {
        let line = self.at.line(self.alloc)?;
        self.at = self.at.next();
        Ok(line)
    }
}
