// All runs as one, where a key and version may stand in more than one of them.
ghost use Rattle.std.specs.Prelude.{◌≡◌, ◌++◌, ◌<◌, length, map, IfOk};
ghost use Rattle.vl_model.specs.Entries.{in_order};
ghost use Rattle.vl_memtable.specs.Contents.{all_of, AreRuns};
ghost use Rattle.vl_memtable.specs.Lengths.{one_run};

use crate::Run;
use std::alloc::{AllocError, Global};

// A run over these, as one run. Of those of one key and version its own entry counts.
pub fn over(alloc: Global, runs: &[Run], run: Run) -> Result<Vec<Run>, AllocError>
    requires { 0 < length run }
    ensures entries { IfOk result
        (λ over. in_order (all_of over.items) ≡ in_order (run ++ in_order (all_of runs.now))) }
    ensures lengths { IfOk result (λ over. map length over.items ≡ one_run (in_order (all_of over.items))) }
    ensures are { IfOk result (λ over. AreRuns over.items) }
{
    // What is read tells the proof that a run is in order.
    let _ = run.as_slice();
    let mut front = run;
    for older in runs {
        front = front.over(alloc, older)?;
    }
    let _ = front.as_slice();
    let mut all = Vec::new(alloc);
    all.push(front)?;
    Ok(all)
}
