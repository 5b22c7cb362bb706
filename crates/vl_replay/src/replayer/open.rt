//! Opening the store on a disk.
ghost use Rattle.std.specs.Prelude.{◌≡◌, ◌≤◌, ◌^◌, ◌-◌, IfErr, IfOk, IsErr, IsTrue, Some};
ghost use Rattle.vl_disk.specs.Crash.{Image};
ghost use Rattle.vl_disk.specs.DiskState.{DiskState};
ghost use Rattle.vl_disk.specs.Faults.{HasCause, HasCounted, NoneCounted};
ghost use Rattle.vl_disk.specs.Moments.{HoldsThroughout};
ghost use Rattle.vl_disk.specs.Started.{IsRead};
ghost use Rattle.vl_engine.specs.Opening.{AnswersOpening, IsDiskFault, IsFault, reader_faults, why_of};
ghost use Rattle.vl_engine_laws.specs.Found.{IsDurable};
ghost use Rattle.vl_engine_laws.specs.Shown.{Shown};
ghost use Rattle.vl_recover.specs.crash.Meanwhile.{FaultsAt, IsMeanwhile};
ghost use Rattle.vl_recover.specs.crash.Starts.{MayOpen};
ghost use Rattle.vl_recover.specs.opening.Opening.{NamesNoTable};
ghost use Rattle.vl_recover.specs.opening.Results.{recovery_by};
ghost use Rattle.vl_script_model.specs.Durable.{CrashesShow, HoldsState, IsAsBefore, StillTells, Tells};
ghost use Rattle.vl_script_model.specs.Opening.{IsRefused};
ghost use Rattle.vl_replay.specs.Opened.{disk_behind};
ghost use Rattle.vl_replay.specs.Served.{IsUnfailing, StandsFor, TakesLines, disk_of};
ghost use Rattle.vl_script_model.specs.Sequential.{State, history_of};
ghost use Rattle.vl_script_model.specs.Start.{StartsIn};
ghost use Rattle.vl_script_model.specs.Stored.{IsStored};
ghost use Rattle.vl_script_model.specs.declared.fails.Refusal.{Refusal};

use crate::replayer::{Replayer, Served};
use std::alloc::Global;
use vl_disk::Disk;
use vl_engine::{Engine, OpenFail};
use vl_model::MAX_ROOM;

impl<D: Disk> Replayer<D> {
    /// Opens the store on a disk, or makes one where nothing stands. Each log may have 1,073,741,824 bytes.
    pub fn new(alloc: Global, disk: D) -> Result<Self, OpenFail<D, D::Reader>>
        // It stands for the store that the disk opens as, and the disk holds it, where it may be opened again.
        ensures store { (s : State) → StartsIn D.Watched disk s
            → IfOk result (λ replayer. StandsFor D.Watched D.Writer.Writer D.Held.bytes replayer s) }
        ensures goes_on { IfOk result TakesLines }
        ensures holds { (s : State) → StartsIn D.Watched disk s → IsTrue s.openable
            → IfOk result (λ replayer. HoldsState D.Watched IsStored s (disk_of replayer)) }

        // What a crash leaves meanwhile shows what was opened.
        ensures through { (s : State) → StartsIn D.Watched disk s → Tells D.Watched disk IsDurable
            → CrashesShow D.Watched Shown disk (disk_behind result) (history_of s) (history_of s) }
        ensures tells { (state : DiskState) → D.told disk ≡ Some state
            → StillTells D.Watched (disk_behind result) }

        // It answers what reads give, unless memory runs out or the disk fails. Where that is a refusal nothing is changed,
        // whatever is answered; and nothing where memory ran out.
        ensures answer { (state : DiskState) (read : Image) → D.told disk ≡ Some state → IsRead read state
            → AnswersOpening read (why_of result) }
        ensures refused { (state : DiskState) (read : Image) (refusal : Refusal) → D.told disk ≡ Some state
            → IsRead read state → IsRefused read refusal
            → IsErr result × IsAsBefore D.Watched disk (disk_behind result) }
        ensures left_alone { (IsFault (why_of result) → ⊥) → IsErr result
            → IsAsBefore D.Watched disk (disk_behind result) }

        // A fault is counted by the disk, or by the reader that is handed back, which is asked only where tables are named, and
        // before anything is changed.
        ensures cause { HasCause (D.faults disk) (D.faults (disk_behind result))
            (IsDiskFault (reader_faults D.Reader.faults result) (why_of result)) }
        ensures unread { (state : DiskState) (read : Image) → D.told disk ≡ Some state → IsRead read state
            → NamesNoTable read → NoneCounted (reader_faults D.Reader.faults result) }
        ensures steady { D.gives_steady disk → NoneCounted (reader_faults D.Reader.faults result) }
        // Where nothing fails beside the disk, nothing does beside what was opened.
        ensures unfailing { (s : State) → StartsIn D.Watched disk s → D.gives_steady disk
            → IfOk result (λ replayer. IsUnfailing D.Watched D.Reader.faults replayer.served) }
        ensures unmoved { HasCounted (reader_faults D.Reader.faults result) → IsAsBefore D.Watched disk (disk_behind result) }

        // A fault is named by the file at which it came.
        ensures at { (state : DiskState) (read : Image) → D.told disk ≡ Some state → IsRead read state
            → IfErr result (λ fail. FaultsAt read state (D.calls disk) (D.calls (disk_behind result)) (recovery_by fail.why)) }

        // And a store may be opened on the disk again, whatever is answered.
        ensures again { (state now : DiskState) → D.told disk ≡ Some state → MayOpen state
            → D.told (disk_behind result) ≡ Some now → MayOpen now }

        // Meanwhile the disk is as it was, or is being repaired by a plan of what reads gave.
        ensures meanwhile { (state : DiskState) (read : Image) → D.told disk ≡ Some state → IsRead read state
            → HoldsThroughout D.Watched disk (disk_behind result) (IsMeanwhile read state) }

        // Whatever is answered, it asked for no more changing calls than the opened store counts.
        ensures at_most { (s : State) → StartsIn D.Watched disk s → D.calls disk ≤ 2 ^ 64 - 1
            → D.calls (disk_behind result) ≤ s.calls }
    {
        match Engine::open(alloc, disk, MAX_ROOM) {
            Ok(engine) => Ok(Replayer {
                served: Served {
                    alloc,
                    engine,
                    opens: Vec::new(alloc),
                },
                planned: None,
                passing: None,
                halted: None,
            }),
            Err(fail) => Err(fail),
        }
    }
}
