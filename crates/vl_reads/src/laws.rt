// Laws of what is seen: each is the contract of a function that does nothing.
ghost use Rattle.std.specs.Prelude.{List};
ghost use Rattle.vl_reads.specs.Changes.{TellsChanges};
ghost use Rattle.vl_reads.specs.Sees.{Sees, SeesAlone};
ghost use Rattle.vl_reads.specs.declared.txn.Txn.{Txn};
ghost use Rattle.vl_reads.specs.declared.view.View.{View};
ghost use Rattle.vl_model.specs.History.{Extends, History};
ghost use Rattle.vl_model.specs.Reads.{Read};

use vl_disk::{HeldFile, Reader};

/// What a transaction and a view see stays, whatever is committed meanwhile, and so does what a view tells of changes.
pub fn what_is_seen_stays<H: HeldFile, R: Reader<Held = H>>()
    ensures txn { (txn : Txn H R) (least most : History) (reads : List Read) → Extends least most
        → Sees H.bytes txn least reads → Sees H.bytes txn most reads }
    ensures view { (view : View H R) (least most : History) → Extends least most
        → SeesAlone H.bytes view least → SeesAlone H.bytes view most }
    ensures changes { (view : View H R) (least most : History) → Extends least most
        → TellsChanges H.bytes view least → TellsChanges H.bytes view most }
{}
