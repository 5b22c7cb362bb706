// Lists of runs, the newest first.
ghost use Rattle.std.specs.Prelude.{◌≡◌, ◌++◌, ◌<◌, length, map, IfOk, OnOk};
ghost use Rattle.std.specs.Option.{option_copied};
ghost use Rattle.vl_model.specs.Entries.{in_order};
ghost use Rattle.vl_model.specs.Winners.{winner, exact};
ghost use Rattle.vl_model.specs.EntryOrder.{along, within};
ghost use Rattle.vl_memtable.specs.Contents.{all_of, AreRuns, IsNewTo};
ghost use Rattle.vl_memtable.specs.Lengths.{lengths_with};

use crate::{Run, RunCursor};
use std::alloc::{AllocError, Global};
use vl_model::{Entry, Span, Way, newest_ref};

// These runs with one more. As long as the first has less than twice the entries of the new one, it
// joins that.
pub fn with(alloc: Global, runs: &[Run], run: Run) -> Result<Vec<Run>, AllocError>
    requires runs { AreRuns runs.now }
    requires some { 0 < length run }
    requires new { IsNewTo (in_order (all_of runs.now)) run }
    ensures entries { IfOk result
        (λ with. in_order (all_of with.items) ≡ in_order (run ++ in_order (all_of runs.now))) }
    ensures lengths { IfOk result
        (λ with. map length with.items ≡ lengths_with (length run) (map length runs.now)) }
    ensures are { IfOk result (λ with. AreRuns with.items) }
{
    // What is read tells the proof that a run is in order, here and below.
    let _ = run.as_slice();
    let mut front = run;
    let mut joined = 0;
    'joining: while joined < runs.len() && runs[joined].len() / 2 < front.len() {
        front = front.over(alloc, &runs[joined])?;
        joined += 1;
    }
    let _ = front.as_slice();
    let mut all = Vec::new(alloc);
    all.push(front)?;
    share_all(&mut all, &runs[joined..])?;
    Ok(all)
}

fn share_all(all: &mut Vec<Run>, runs: &[Run]) -> Result<(), AllocError>
    ensures { OnOk result (all.new.items ≡ all.old.items ++ runs.now) }
{
    for run in runs {
        all.push(run.share()?)?;
    }
    Ok(())
}

pub fn find<'a>(runs: &'a [Run], key: &[u8], number: u64) -> Option<&'a Entry>
    ensures { option_copied result ≡ winner (all_of runs.now) key.now number }
{
    let mut best = None;
    for run in runs {
        best = newest_ref(best, run.find(key, number));
    }
    best
}

pub fn exact<'a>(runs: &'a [Run], key: &[u8], version: u64) -> Option<&'a Entry>
    ensures { option_copied result ≡ exact (all_of runs.now) key.now version }
{
    for run in runs {
        if let Some(entry) = run.exact(key, version) {
            return Some(entry);
        }
    }
    None
}

pub fn share(alloc: Global, runs: &[Run]) -> Result<Vec<Run>, AllocError>
    ensures { IfOk result (λ shared. shared.items ≡ runs.now) }
{
    let mut all = Vec::new(alloc);
    share_all(&mut all, runs)?;
    Ok(all)
}

// Cursors over the entries of these runs whose keys are in an interval, one for each run.
pub fn cursors_within(
    alloc: Global,
    runs: &[Run],
    span: &Span,
    way: Way,
) -> Result<Vec<RunCursor>, AllocError>
    ensures { IfOk result (λ cursors. cursors.items ≡ map (λ run. along way (within span.now run)) runs.now) }
{
    let mut all = Vec::new(alloc);
    for run in runs {
        all.push(run.cursor_within(span, way)?)?;
    }
    Ok(all)
}

// Cursors over these runs, one for each.
pub fn cursors(alloc: Global, runs: &[Run], way: Way) -> Result<Vec<RunCursor>, AllocError>
    ensures { IfOk result (λ cursors. cursors.items ≡ map (along way) runs.now) }
{
    let mut all = Vec::new(alloc);
    for run in runs {
        all.push(run.cursor(way)?)?;
    }
    Ok(all)
}
