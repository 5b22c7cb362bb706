// Laws of the definitions: each is the contract of a function that does nothing.
ghost use Rattle.std.specs.Prelude.{◌≡◌, ℕ, List, None, Option};
ghost use Rattle.std.specs.List.{AllByRecursion};
ghost use Rattle.vl_compact.specs.Laid.{AreTablesOf};
ghost use Rattle.vl_compact.specs.Merges.{drain_in, plan_in};
ghost use Rattle.vl_compact.specs.Ruled.{merge_ruling};
ghost use Rattle.vl_compact.specs.Stops.{AreReadWhole, HasTrueIndex, MayStopIn, StandsWhole};
ghost use Rattle.vl_disk.specs.declared.name.Name.{Name};
ghost use Rattle.vl_disk.specs.declared.read_fault.ReadFault.TheVariants.{Damaged};
ghost use Rattle.vl_engine_model.specs.Rulings.Drain.{drain_ruling};
ghost use Rattle.vl_engine_model.specs.Rulings.Plan.{plan_ruling};
ghost use Rattle.vl_engine_model.specs.declared.layout.Layout.{Layout};
ghost use Rattle.vl_engine_model.specs.declared.table.Table as laid;
ghost use Rattle.vl_model.specs.History.{History};
ghost use Rattle.vl_table.specs.declared.table.Table.{Table};

use vl_disk::HeldFile;

/// Where no job is open, the merges that are planned of a layout's levels are those that it rules.
pub fn merges_are_as_ruled()
    ensures plan { (l : Layout) (h : History) → l.job ≡ None → plan_ruling l h ≡ merge_ruling l h (plan_in l.levels) }
    ensures drain { (l : Layout) (h : History) (segment : ℕ) → l.job ≡ None
        → drain_ruling l h segment ≡ merge_ruling l h (drain_in segment l.levels) }
{}

/// Of inputs that were read whole each block stands, where their indexes are true.
pub fn what_was_read_whole_stands<H: HeldFile>()
    ensures { (ts : List (Table H)) → AreReadWhole H.bytes ts
        → AllByRecursion (λ t. HasTrueIndex H.bytes t → StandsWhole H.bytes t) ts }
{}

/// Inputs that are true tables are never damaged.
pub fn true_inputs_are_not_damaged<H: HeldFile>()
    ensures { (after : Option (List ℕ)) (ts : List (Table H)) (ls : List laid.Table) (name : Name) (place : ℕ)
        → AreTablesOf H.bytes ts ls → MayStopIn H.bytes after ts (Damaged name place) → ⊥ }
{}
