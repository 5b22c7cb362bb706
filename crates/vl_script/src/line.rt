ghost use Rattle.std.specs.Prelude.{◌≡◌};
ghost use Rattle.vl_script.specs.Summary.{is_commit};

use vl_model::{Bytes, Way};

/// A name that a script gives to a transaction, a view, a merge or a pass: 1 to 16 of `a` to `z` and `0` to `9`.
pub type Ident = Bytes;

/// A line of a script, as docs/SCRIPT.md spells it. Its key and its value have any length.
#[derive(Drop)]
pub enum Line {
    /// `begin T`: opens a transaction at the last commit.
    Begin {
        name: Ident,
    },
    /// `view T`: opens a view, which only reads, at the last commit.
    View {
        name: Ident,
    },
    /// `get T K`: reads a key.
    Get {
        name: Ident,
        key: Bytes,
    },
    /// `set T K V`: writes a key in a transaction.
    Set {
        name: Ident,
        key: Bytes,
        value: Bytes,
    },
    /// `setb T K V U`: writes a key in a transaction, with a tag from 0 to 255 beside the value.
    SetTagged {
        name: Ident,
        key: Bytes,
        value: Bytes,
        tag: u8,
    },
    /// `getb T K`: reads a key, with its value's tag.
    GetTagged {
        name: Ident,
        key: Bytes,
    },
    /// `getat T K N`: reads a key as it stood at number N, which may be any of 64 bits.
    GetAt {
        name: Ident,
        key: Bytes,
        number: u64,
    },
    /// `scan T LO HI N` and `rscan T LO HI N`: reads the first N rows whose keys are at or above LO and below HI, with their
    /// keys rising or falling. No bytes are no end on their side.
    Scan {
        name: Ident,
        low: Bytes,
        high: Bytes,
        limit: u16,
        way: Way,
    },
    /// `del T K`: deletes a key in a transaction.
    Delete {
        name: Ident,
        key: Bytes,
    },
    /// `commit T`: ends a transaction, with its writes as the next commit.
    Commit {
        name: Ident,
    },
    /// `drop X`: ends a transaction, a view, a merge or a pass, and nothing of it stays.
    Drop {
        name: Ident,
    },
    /// `rotate`: seals the log that takes commits, and begins a new one.
    Rotate,
    /// `flush`: writes the entries of the log that was sealed first to a table.
    Flush,
    /// `plan J`: merges the tables of the level that is due first into files beside them.
    Plan {
        name: Ident,
    },
    /// `drain J S`: merges the first table that leads into log S, alone, into files beside it.
    Drain {
        name: Ident,
        segment: u32,
    },
    /// `install J`: puts a merge's tables into the place of those that it merged.
    Install {
        name: Ident,
    },
    /// `keep V`: says how many of the newest versions of a key merges are to keep, with V from 0 to 255.
    Keep {
        versions: u8,
    },
    /// `sweep`: removes the retired files that nothing holds any more.
    Sweep,
    /// `stats`: tells how long each log is, and how much of it is live.
    Stats,
    /// `pick G P`: begins a pass over the log with the greatest share of garbage, of P per cent at least, with P from 0 to 255.
    Pick {
        name: Ident,
        percent: u8,
    },
    /// `batch G`: finds the next records of a pass that are to be moved.
    Batch {
        name: Ident,
    },
    /// `move G`: writes again what of the batch that waits is still live.
    Move {
        name: Ident,
    },
}

impl Line {
    /// Whether it ends a transaction with its writes as the next commit.
    pub fn is_commit(&self) -> bool
        ensures { result ≡ is_commit self.now }
    {
        matches!(self, Line::Commit { .. })
    }
}
