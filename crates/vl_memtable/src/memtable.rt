ghost use Rattle.std.specs.Prelude.{◌≡◌, ◌++◌, ◌<◌, ◌↔◌, length, IfOk, IsTrue};
ghost use Rattle.std.specs.Option.{option_copied};
ghost use Rattle.vl_model.specs.Entries.{in_order};
ghost use Rattle.vl_model.specs.Winners.{winner, exact};
ghost use Rattle.vl_memtable.specs.Contents.{IsNewTo, GiveAll, GiveWithin};
ghost use Rattle.vl_memtable.specs.Facts.{HasFewRuns};
ghost use Rattle.vl_memtable.specs.Lengths.{lengths_with, one_run};

use crate::over::over;
use crate::{Run, RunCursor, runs};
use std::alloc::{AllocError, Global};
use std::marker::Model;
use vl_model::{Entry, Span, Way};

/// Entries in order, as a list of runs that older memtables share.
#[derive(Drop)]
pub struct Memtable {
    runs: Vec<Run>,
}

impl Model for Memtable {
    ghost use Rattle.vl_memtable.specs.Contents.{Contents, contents_of, AreRuns};

    ghost Value = { Contents };

    ghost view = { λ a. contents_of a.runs.items };

    ghost invariant = { λ a. AreRuns a.runs.items };
}

impl Memtable {
    ghost use Rattle.std.specs.Prelude.{[]};

    /// The memtable without an entry.
    pub fn new(alloc: Global) -> Self
        ensures { result ≡ record { entries = []; lengths = [] } }
    {
        Memtable {
            runs: Vec::new(alloc),
        }
    }

    /// This memtable with a run more, of entries whose keys and versions it hasn't. It stays as it
    /// is itself, and shares its entries with the new one.
    pub fn with(&self, run: Run) -> Result<Memtable, AllocError>
        requires some { 0 < length run }
        requires new { IsNewTo self.now.entries run }
        ensures entries { IfOk result (λ with. with.entries ≡ in_order (run ++ self.now.entries)) }
        ensures lengths { IfOk result
            (λ with. with.lengths ≡ lengths_with (length run) self.now.lengths) }
    {
        let runs = runs::with(*self.runs.allocator(), &self.runs, run)?;
        Ok(Memtable { runs })
    }

    /// This memtable with a run over it, of entries whose keys and versions it may have: of those of one key and
    /// version the run's counts. All entries become one run. It stays as it is itself.
    pub fn over(&self, run: Run) -> Result<Memtable, AllocError>
        requires { 0 < length run }
        ensures entries { IfOk result (λ over. over.entries ≡ in_order (run ++ self.now.entries)) }
        ensures lengths { IfOk result (λ over. over.lengths ≡ one_run over.entries) }
    {
        let runs = over(*self.runs.allocator(), &self.runs, run)?;
        Ok(Memtable { runs })
    }

    /// Whether it has no entry.
    pub fn is_empty(&self) -> bool
        ensures { IsTrue result ↔ (self.now.entries ≡ []) }
    {
        self.runs.as_slice().is_empty()
    }

    /// Each run has at least twice the entries of the next newer one, so there are at most a logarithm
    /// of them.
    pub fn has_few_runs(&self)
        ensures { HasFewRuns self.now }
    {
        // What is read tells the proof what holds of the runs.
        let _ = self.runs.len();
    }

    /// This memtable as one that takes no more entries.
    pub fn freeze(self) -> Frozen
        ensures { result ≡ self }
    {
        Frozen { memtable: self }
    }

    /// Of the entries of a key with a version of at most a number the one of the greatest version.
    pub fn find(&self, key: &[u8], number: u64) -> Option<&Entry>
        ensures { option_copied result ≡ winner self.now.entries key.now number }
    {
        runs::find(&self.runs, key, number)
    }

    /// The entry of a key and version.
    pub fn exact(&self, key: &[u8], version: u64) -> Option<&Entry>
        ensures { option_copied result ≡ exact self.now.entries key.now version }
    {
        runs::exact(&self.runs, key, version)
    }

    /// The same once more, which shares the entries. It may want memory.
    pub fn share(&self) -> Result<Memtable, AllocError>
        ensures { IfOk result (λ shared. shared ≡ self.now) }
    {
        Ok(Memtable {
            runs: runs::share(*self.runs.allocator(), &self.runs)?,
        })
    }

    /// Cursors over the runs, one for each, the newest first. It may want memory.
    pub fn cursors(&self, way: Way) -> Result<Vec<RunCursor>, AllocError>
        ensures { IfOk result (λ cursors. GiveAll way self.now cursors.items) }
    {
        runs::cursors(*self.runs.allocator(), &self.runs, way)
    }

    /// Cursors over the entries whose keys are in an interval, one for each run, the newest first. It may want memory.
    pub fn cursors_within(&self, span: &Span, way: Way) -> Result<Vec<RunCursor>, AllocError>
        ensures { IfOk result (λ cursors. GiveWithin span.now way self.now cursors.items) }
    {
        runs::cursors_within(*self.runs.allocator(), &self.runs, span, way)
    }
}

/// A memtable that takes no more entries.
#[derive(Drop)]
pub struct Frozen {
    memtable: Memtable,
}

impl Model for Frozen {
    ghost use Rattle.vl_memtable.specs.Contents.{Contents};

    ghost Value = { Contents };

    ghost view = { λ a. a.memtable };
}

impl Frozen {
    pub fn memtable(&self) -> &Memtable
        ensures { result.now ≡ self.now }
    {
        &self.memtable
    }
}
