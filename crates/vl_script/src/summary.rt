//! What a benchmark prints at its end.

ghost use Rattle.std.specs.Prelude.{◌≡◌, ◌++◌, OnOk};
ghost use Rattle.vl_script.specs.Summary.{bytes_in, bytes_text, counts_text, live_in, logs_text, summary_text};

use crate::print::{print_number, push_number};
use crate::{Answer, SegmentLine};
use std::alloc::AllocError;

/// What a benchmark sums up of the answers to its lines. No sum passes 2^64 - 1, at which it stands still.
#[derive(Clone, Copy, Debug, PartialEq, Eq)]
pub struct Summary {
    /// How many commits were answered with a number.
    pub commits: u64,
    /// How many rows the scans gave.
    pub rows: u64,
    /// How many records were written again.
    pub moved: u64,
    /// How long the logs are behind their headers, and how much of that is live.
    pub bytes: u64,
    pub live: u64,
}

impl Summary {
    ghost use Rattle.std.specs.Prelude.{◌≡◌, if◌then◌else◌};
    ghost use Rattle.vl_script.specs.Summary.{counted, none_counted, plus};

    /// The summary of no answers.
    pub fn none() -> Self
        ensures { result ≡ none_counted }
    {
        Summary {
            commits: 0,
            rows: 0,
            moved: 0,
            bytes: 0,
            live: 0,
        }
    }

    /// Counts the answer to a line, which is a commit or isn't.
    pub fn count(&mut self, commits: bool, answer: &Answer)
        ensures { self.new ≡ counted commits answer.now self.old }
    {
        match answer {
            Answer::Number { .. } => self.count_number(commits),
            Answer::Rows { rows } => self.rows = self.rows.saturating_add(rows.len() as u64),
            Answer::Moved { count } => self.moved = self.moved.saturating_add(*count),
            Answer::Segments { segments } => {
                self.bytes = self.bytes.saturating_add(bytes_in(segments));
                self.live = self.live.saturating_add(live_in(segments));
            }
            _ => {}
        }
    }

    fn count_number(&mut self, commits: bool)
        ensures { self.new ≡ (if commits then record self.old { commits = plus self.old.commits 1 } else self.old) }
    {
        if commits {
            self.commits = self.commits.saturating_add(1);
        }
    }
}

fn bytes_in(segments: &[SegmentLine]) -> u64
    ensures { result ≡ bytes_in segments.now }
{
    let mut total: u64 = 0;
    for segment in segments {
        total = total.saturating_add(segment.bytes);
    }
    total
}

fn live_in(segments: &[SegmentLine]) -> u64
    ensures { result ≡ live_in segments.now }
{
    let mut total: u64 = 0;
    for segment in segments {
        total = total.saturating_add(segment.live);
    }
    total
}

/// Appends what is printed of a summary. Where memory is missing, some first bytes of it may have been appended.
pub fn print_summary(text: &mut Vec<u8>, summary: Summary) -> Result<(), AllocError>
    ensures { OnOk result (text.new.items ≡ text.old.items ++ summary_text summary) }
{
    print_counts(text, summary)?;
    print_logs(text, summary)
}

fn print_counts(text: &mut Vec<u8>, summary: Summary) -> Result<(), AllocError>
    ensures { OnOk result (text.new.items ≡ text.old.items ++ counts_text summary) }
{
    print_number(text, b"commits ", summary.commits)?;
    print_number(text, b"rows ", summary.rows)
}

fn print_logs(text: &mut Vec<u8>, summary: Summary) -> Result<(), AllocError>
    ensures { OnOk result (text.new.items ≡ text.old.items ++ logs_text summary) }
{
    print_number(text, b"moved ", summary.moved)?;
    print_bytes(text, summary)
}

fn print_bytes(text: &mut Vec<u8>, summary: Summary) -> Result<(), AllocError>
    ensures { OnOk result (text.new.items ≡ text.old.items ++ bytes_text summary) }
{
    push_number(text, b"bytes ", summary.bytes)?;
    print_number(text, b" live ", summary.live)
}
