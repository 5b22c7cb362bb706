//! Laws of what is kept of space: each is the contract of a function that does nothing.

ghost use Rattle.std.specs.Prelude.{◌≡◌, ℕ, Some};
ghost use Rattle.vl_disk.specs.Crash.{WhileRemoving};
ghost use Rattle.vl_disk.specs.DiskState.{DiskState, File, IsLawful, without};
ghost use Rattle.vl_disk.specs.Lending.{WhileAdopting, adopted};
ghost use Rattle.vl_disk.specs.declared.name.Name.TheVariants.{Table};
ghost use Rattle.vl_disk.specs.declared.name.Name.{Name};
ghost use Rattle.vl_engine_laws.specs.Held.{Base, Holds, IsBase};
ghost use Rattle.vl_engine_laws.specs.Pointed.{layout_logs};
ghost use Rattle.vl_engine_laws.specs.Shown.{LeavesBetween};
ghost use Rattle.vl_engine_laws.specs.declared.kept.Core.{Core};
ghost use Rattle.vl_engine_model_laws.specs.Calls.{Call, ruling_on};
ghost use Rattle.vl_space.specs.Collecting.{Collects, LeavesSpace};
ghost use Rattle.vl_space.specs.declared.kept.Collecting.{Collecting};
ghost use Rattle.vl_space.specs.laws.SweepHolds.{IsOutside};
ghost use Rattle.vl_engine_model.specs.Tidy.{IsTidy};
ghost use Rattle.vl_engine_model.specs.declared.layout.Layout.{Layout};
ghost use Rattle.vl_model.specs.History.{History};
ghost use Rattle.vl_recover.specs.crash.Starts.{MayOpen};

use vl_disk::HeldFile;

/// What is kept of where space comes back from is the new layout's behind each call that seals no log, switches no tables, and
/// neither begins nor ends a pass. Such a call leaves what is kept, and the version's logs, as they are.
pub fn other_calls_leave_what_is_collected<H: HeldFile>()
    ensures { (before after : Core H) (kept : Collecting) (l : Layout) (h : History) (call : Call) → LeavesSpace call
        → after.version.behind.logs ≡ before.version.behind.logs → Collects before kept l
        → Collects after kept (ruling_on call l h).layout }
{}

/// While a file that a layout doesn't need is removed, whatever a crash leaves shows the history; and behind it the disk holds the
/// layout. So it is with a file that was lent, whatever was written there, and that is taken back first.
pub fn a_sweep_removes_beside_the_layout()
    ensures removing { (b : Base) (l : Layout) (h : History) (disk now : DiskState) (name : Name) → IsBase b l h
        → IsTidy (layout_logs l) l h → Holds b l disk → IsOutside b l name → WhileRemoving name disk now → LeavesBetween h h now }
    ensures removed { (b : Base) (l : Layout) (h : History) (disk : DiskState) (name : Name) → IsBase b l h
        → IsTidy (layout_logs l) l h → Holds b l disk → IsOutside b l name → Holds b l (without name disk) }
    ensures adopting { (b : Base) (l : Layout) (h : History) (disk now : DiskState) (name : Name) (file : File) → IsBase b l h
        → IsTidy (layout_logs l) l h → Holds b l disk → IsOutside b l name → WhileAdopting name (Some file) disk now
        → LeavesBetween h h now }
    ensures taking { (b : Base) (l : Layout) (h : History) (disk now : DiskState) (name : Name) (file : File) → IsBase b l h
        → IsTidy (layout_logs l) l h → Holds b l disk → IsOutside b l name → WhileRemoving name (adopted name file disk) now
        → LeavesBetween h h now }
    ensures taken { (b : Base) (l : Layout) (h : History) (disk : DiskState) (name : Name) (file : File) → IsBase b l h
        → IsTidy (layout_logs l) l h → Holds b l disk → IsOutside b l name → IsLawful (adopted name file disk)
        → Holds b l (without name (adopted name file disk)) }
    ensures stopped { (b : Base) (l : Layout) (h : History) (disk : DiskState) (n : ℕ) (file : File) → IsBase b l h
        → IsTidy (layout_logs l) l h → Holds b l disk → IsOutside b l (Table n) → IsLawful (adopted (Table n) file disk)
        → MayOpen (adopted (Table n) file disk) }
{}
