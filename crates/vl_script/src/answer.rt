use crate::Ident;
use vl_model::{Counter, Key, Value};

/// The answer to a line, as docs/SCRIPT.md spells it.
#[derive(Drop)]
pub enum Answer {
    /// `ok`
    Done,
    /// `ok N`: a number, as that of the last commit at a begin or a view, or of the commit or the table that was made.
    Number { number: u64 },
    /// `value V`
    Found { value: Value },
    /// `value V byte U`: with the value's tag.
    FoundTagged { value: Value },
    /// `none`: the key has no value.
    NoValue,
    /// `dropped L`: what the key had at that number may be gone. L is the least number at which it can be read.
    Dropped { low: u64 },
    /// `rows c`, and c lines `K V`: the rows of a scan.
    Rows { rows: Vec<(Key, Value)> },
    /// `taken T`: the name is in use.
    Taken { name: Ident },
    /// `unknown T`: the name isn't in use.
    Unknown { name: Ident },
    /// `readonly`: a view takes no writes.
    ReadOnly,
    /// `invalid`: the key or the value is outside its limits.
    Invalid,
    /// `toobig`: the transaction would pass a limit.
    TooBig,
    /// `toomany`: no more transactions and views may be open.
    TooMany,
    /// `nothing`: the transaction had no writes.
    Nothing,
    /// `conflict K n`: the least key that the transaction read and a later commit named, and the last such commit.
    Conflict { key: Key, number: u64 },
    /// `full`: the log has no room for the commit or the move.
    Full,
    /// `idle`: there is nothing to seal, to write, to merge or to move.
    Idle,
    /// `raced K`: the least key of which a merge dropped a deletion and a value was moved meanwhile.
    Raced { key: Key },
    /// `exhausted W`: there is no next number of this kind.
    Exhausted { counter: Counter },
    /// `rejected S`: a pass over this log is open.
    Rejected { segment: u32 },
    /// `norewrite`: no log has so great a share of garbage.
    NoRewrite,
    /// `found c`: so many records are in the batch that waits now.
    FoundRecords { count: u64 },
    /// `end`: the pass has no more records.
    End,
    /// `moved c`: so many records were written again.
    Moved { count: u64 },
    /// `removed c`: so many files were removed.
    Removed { count: u64 },
    /// `segments c`, and c lines `segment S bytes B live L`: the logs, by rising numbers.
    Segments { segments: Vec<SegmentLine> },
}

/// What is printed of a log: its number, its bytes behind the header, and how many of them are live.
#[derive(Drop)]
pub struct SegmentLine {
    pub segment: u32,
    pub bytes: u64,
    pub live: u64,
}
