//! Where a generator is among its lines.

ghost use Rattle.std.specs.Prelude.{◌+◌, ◌<◌, ◌^◌};

use crate::Line;
use crate::generator::line::{drop_line, ident, next_number, scan_line, write_line};
use std::alloc::{AllocError, Global};

// Where a generator is: at a step of a round, with so many rounds behind this one.
#[derive(Clone, Copy)]
pub struct At {
    step: Step,
    round: u32,
    number: u64,
    left: u32,
    ghost fits: { round + left < 2 ^ 32 },
}

// What the next line is. Behind a batch or a move of a pass come so many batches more.
#[derive(Clone, Copy)]
pub enum Step {
    Begin,
    Write,
    Commit,
    Rotate,
    Flush,
    Plan,
    Install,
    Sweep,
    Pick,
    Batch { more: u8 },
    Move { more: u8 },
    EndPass,
    View,
    Scan,
    EndView,
    Stats,
    End,
}

impl Step {
    ghost use Rattle.std.specs.Prelude.{◌≡◌, ◌++◌, ℕ, List};
    ghost use Rattle.vl_script.specs.declared.line.Line.{Line};
    ghost use Rattle.vl_script.specs.Generator.{batch_lines};
    ghost use Rattle.vl_script.specs.Steps.{lines_from};

    // Where so many batches come, and the end of the pass.
    fn batches(count: u8) -> Step
        ensures { (round x : ℕ) (later : List Line) → lines_from result round x later ≡ batch_lines count ++ later }
    {
        if count == 0 {
            return Step::EndPass;
        }
        Step::Batch { more: count - 1 }
    }
}

impl At {
    ghost use Rattle.std.specs.Prelude.{◌≡◌, ◌+◌, ◌<◌, ◌^◌, IfOk, drop, slice_get};
    ghost use Rattle.vl_script.specs.Generator.{lines_behind};
    ghost use Rattle.vl_script.specs.Steps.{lines_at};

    // Behind a round, with so many rounds to come.
    pub fn behind(round: u32, number: u64, left: u32) -> At
        requires { round + left < 2 ^ 32 }
        ensures { lines_at result ≡ lines_behind left round number }
    {
        if left == 0 {
            return At {
                step: Step::View,
                round,
                number,
                left,
            };
        }
        At {
            step: Step::Begin,
            round: round + 1,
            number: next_number(number),
            left: left - 1,
        }
    }

    // Where it is behind the next line.
    pub fn next(self) -> At
        ensures { lines_at result ≡ drop 1 (lines_at self) }
    {
        let step = match self.step {
            Step::Begin => Step::Write,
            Step::Write => Step::Commit,
            Step::Commit if self.round % 64 != 0 => {
                return At::behind(self.round, self.number, self.left);
            }
            Step::Commit => Step::Rotate,
            Step::Rotate => Step::Flush,
            Step::Flush => Step::Plan,
            Step::Plan => Step::Install,
            Step::Install => Step::Sweep,
            Step::Sweep if self.round % 256 != 0 => {
                return At::behind(self.round, self.number, self.left);
            }
            Step::Sweep => Step::Pick,
            Step::Pick => Step::Batch { more: 7 },
            Step::Batch { more } => Step::Move { more },
            Step::Move { more } => Step::batches(more),
            Step::EndPass => return At::behind(self.round, self.number, self.left),
            Step::View => Step::Scan,
            Step::Scan => Step::EndView,
            Step::EndView => Step::Stats,
            Step::Stats => Step::End,
            Step::End => Step::End,
        };
        At {
            step,
            round: self.round,
            number: self.number,
            left: self.left,
        }
    }

    // The next line.
    pub fn line(self, alloc: Global) -> Result<Option<Line>, AllocError>
        ensures { IfOk result (λ line. line ≡ slice_get (lines_at self) 0) }
    {
        let line = match self.step {
            Step::Begin => Line::Begin {
                name: ident(alloc, b"t")?,
            },
            Step::Write => write_line(alloc, self.round, self.number)?,
            Step::Commit => Line::Commit {
                name: ident(alloc, b"t")?,
            },
            Step::Rotate => Line::Rotate,
            Step::Flush => Line::Flush,
            Step::Plan => Line::Plan {
                name: ident(alloc, b"j")?,
            },
            Step::Install => Line::Install {
                name: ident(alloc, b"j")?,
            },
            Step::Sweep => Line::Sweep,
            Step::Pick => Line::Pick {
                name: ident(alloc, b"g")?,
                percent: 30,
            },
            Step::Batch { .. } => Line::Batch {
                name: ident(alloc, b"g")?,
            },
            Step::Move { .. } => Line::Move {
                name: ident(alloc, b"g")?,
            },
            Step::EndPass => drop_line(alloc, b"g")?,
            Step::View => Line::View {
                name: ident(alloc, b"v")?,
            },
            Step::Scan => scan_line(alloc)?,
            Step::EndView => drop_line(alloc, b"v")?,
            Step::Stats => Line::Stats,
            Step::End => return Ok(None),
        };
        Ok(Some(line))
    }
}
