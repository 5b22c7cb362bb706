ghost use Rattle.std.specs.Prelude.{◌≡◌, ◌≤◌, ◌+◌, All, List, [], length, None, Some, IfErr, IfOk, IsErr, vec_capacity};
ghost use Rattle.vl_disk.specs.Calls.{ChangesNothing};
ghost use Rattle.vl_disk.specs.Crash.{Image};
ghost use Rattle.vl_disk.specs.DiskState.{DiskState};
ghost use Rattle.vl_disk.specs.Faults.{HasCause, HasCounted, NoneCounted, after_calls};
ghost use Rattle.vl_disk.specs.Moments.{HoldsThroughout};
ghost use Rattle.vl_disk.specs.Started.{IsRead};
ghost use Rattle.vl_disk.specs.declared.name.Name.{Name};
ghost use Rattle.vl_engine_laws.specs.Carries.{CrashesShow, Tells};
ghost use Rattle.vl_space.specs.Collecting.{Collects, nothing_collected};
ghost use Rattle.vl_engine.specs.Opening.{AnswersOpening, IsAsBefore};
ghost use Rattle.vl_engine_laws.specs.Found.{AreLeveled, IsBackAtStart, IsCoreOf};
ghost use Rattle.vl_engine.specs.Opening.{IsDiskFault, IsFault, disk_behind, reader_faults};
ghost use Rattle.vl_engine_laws.specs.Found.{IsDurable, recovered};
ghost use Rattle.vl_engine.specs.Opening.{why_of};
ghost use Rattle.vl_engine_laws.specs.Represents.{Represents, StandsFor};
ghost use Rattle.vl_engine_laws.specs.Shown.{Shown};
ghost use Rattle.vl_engine_laws.specs.MayStep.{Fits};
ghost use Rattle.vl_engine_model.specs.Start.{layout_at_start};
ghost use Rattle.vl_model.specs.History.{History, last_number};
ghost use Rattle.vl_model.specs.Limits.{max_room};
ghost use Rattle.vl_recover.specs.crash.Alike.{OpensAsOf};
ghost use Rattle.vl_recover.specs.crash.Meanwhile.{FaultsAt, IsMeanwhile, IsRepaired};
ghost use Rattle.vl_recover.specs.crash.Starts.{MayOpen};
ghost use Rattle.vl_recover.specs.opening.Answers.{AreStrayNames, Finds, IsNotOpened, calls_to_open};
ghost use Rattle.vl_recover.specs.opening.Intact.{IsIntact, LeavesIntact};
ghost use Rattle.vl_recover.specs.opening.Opening.{NamesNoTable};
ghost use Rattle.vl_front.specs.Front.{IsPruned};
ghost use Rattle.vl_recover.specs.opening.Results.{IsOneRun, recovery_by};
ghost use Rattle.vl_recover.specs.repairing.Steps.{MakesSome};
ghost use Rattle.vl_space.specs.Removing.{IsNothingRemoved, Removes};

use crate::{Engine, OpenError, OpenFail};
use std::alloc::Global;
use vl_back::Back;
use vl_disk::{Disk, HeldFile};
use vl_engine_laws::Core;
use vl_front::Front;
use vl_pins::{Pins, Stock};
use vl_recover::recover;
use vl_space::{Collecting, Removing};
use vl_table::Table;
use vl_version::{Level, Levels, Version};

// How many levels there are below level 0.
const DEEPER_LEVELS: usize = 6;

impl<D: Disk> Engine<D> {
    /// Opens the store on a disk, or makes one where nothing stands. Each log may have so many bytes.
    pub fn open(alloc: Global, disk: D, room: u64) -> Result<Self, OpenFail<D, D::Reader>>
        requires { room ≤ max_room }

        // It stands for the history that reads of the disk show, and for the layout at its start; and represents it where a
        // store may be opened.
        ensures stands { (state : DiskState) (read : Image) (found : Finds read) (h : History) → D.told disk ≡ Some state
            → IsRead read state → (shown : Shown read h (last_number h))
            → IfOk result (λ engine. StandsFor D.Held.bytes engine.core h (layout_at_start room (recovered found shown))) }
        ensures represents { (state : DiskState) (read : Image) (found : Finds read) (h : History) → D.told disk ≡ Some state
            → MayOpen state → IsRead read state → (shown : Shown read h (last_number h))
            → IfOk result (λ engine. Represents D.Held.bytes engine.core (D.told engine.disk) h
            (layout_at_start room (recovered found shown))) }

        // What steps on files ask is so.
        ensures fits { (state : DiskState) (read : Image) (found : Finds read) (h : History) → D.told disk ≡ Some state
            → IsRead read state → (shown : Shown read h (last_number h))
            → IfOk result (λ engine. Fits (D.told engine.disk) engine.core h (layout_at_start room (recovered found shown))) }

        // What it keeps is what reads give, also where they show no history since blocks of tables are damaged.
        ensures core { (state : DiskState) (read : Image) (found : Finds read) → D.told disk ≡ Some state → IsRead read state
            → IfOk result (λ engine. IsCoreOf D.Held.bytes found room engine.core) }
        ensures back { (state : DiskState) (read : Image) (found : Finds read) → D.told disk ≡ Some state → IsRead read state
            → IfOk result (λ engine. IsBackAtStart found engine.core.back) }

        // In memory each log with frames is one run, and behind them nothing yet. Of no commit a key is named.
        ensures runs { IfOk result (λ engine. All IsOneRun engine.core.version.behind.frozen.items) }
        ensures active { IfOk result (λ engine. engine.core.version.active ≡ record { entries = []; lengths = [] }) }
        ensures pruned { IfOk result (λ engine. IsPruned engine.core.front) }

        // No merge is open, and no pass. How much is live isn't known yet, but which logs there are.
        ensures merging { IfOk result (λ engine. engine.merging ≡ None) }
        ensures collecting { IfOk result (λ engine. engine.collecting ≡ nothing_collected) }
        ensures collects { (state : DiskState) (read : Image) (found : Finds read) (h : History) → D.told disk ≡ Some state
            → IsRead read state → (shown : Shown read h (last_number h))
            → IfOk result (λ engine. Collects engine.core engine.collecting (layout_at_start room (recovered found shown))) }

        // Nothing is pinned, and nothing waits for its removal; which files are in use isn't kept yet.
        ensures removing { IfOk result (λ engine. IsNothingRemoved engine.removing) }
        ensures removes { (state : DiskState) (read : Image) (found : Finds read) (h : History) → D.told disk ≡ Some state
            → IsRead read state → (shown : Shown read h (last_number h))
            → IfOk result (λ engine. Removes engine.core engine.removing (layout_at_start room (recovered found shown))) }

        // What a crash leaves meanwhile shows what was opened; and opens as something that one could have left before.
        ensures through { (state : DiskState) (read : Image) (h : History) → D.told disk ≡ Some state → IsDurable state
            → IsRead read state → Shown read h (last_number h) → CrashesShow D.Watched disk (disk_behind result) h h }

        ensures as_of { (state : DiskState) → D.told disk ≡ Some state → MayOpen state
            → HoldsThroughout D.Watched disk (disk_behind result) (OpensAsOf state) }

        // And it is intact, where all that one could have left before was; behind Ok where what was read was.
        ensures stays_intact { (state : DiskState) → D.told disk ≡ Some state → MayOpen state → LeavesIntact state
            → HoldsThroughout D.Watched disk (disk_behind result) LeavesIntact }
        ensures intact { (state now : DiskState) (read : Image) → D.told disk ≡ Some state → MayOpen state → IsRead read state
            → IsIntact read → D.told (disk_behind result) ≡ Some now → IfOk result (λ engine. LeavesIntact now) }

        // It answers what reads give, unless memory runs out or the disk fails. Where that is a refusal nothing is changed,
        // whatever is answered; and nothing where memory ran out.
        ensures answer { (state : DiskState) (read : Image) → D.told disk ≡ Some state → IsRead read state
            → AnswersOpening read (why_of result) }
        ensures not_opened { (state : DiskState) (read : Image) → D.told disk ≡ Some state → IsRead read state
            → IsNotOpened read → IsAsBefore D.Watched disk (disk_behind result) }
        ensures untouched { (IsFault (why_of result) → ⊥) → IsErr result
            → ChangesNothing D.Watched disk (disk_behind result) ⊥ }
        ensures left_alone { (IsFault (why_of result) → ⊥) → IsErr result
            → IsAsBefore D.Watched disk (disk_behind result) }

        // A fault is counted, by the disk or by the reader that is handed back, and named by the file at which it came.
        ensures cause { HasCause (D.faults disk) (D.faults (disk_behind result))
            (IsDiskFault (reader_faults D.Reader.faults result) (why_of result)) }
        // What that reader failed at is answered as a fault: not as want of memory, and not as damage.
        ensures read_fault { HasCounted (reader_faults D.Reader.faults result) → IsFault (why_of result) }
        // None is handed back only where none was made, for want of memory, and the disk is as it was.
        ensures no_reader { IfErr result (λ fail. fail.reader ≡ None → (fail.why ≡ OpenError.NoMemory) × (fail.disk ≡ disk)) }
        // One that never fails counted none: so each fault is the disk's.
        ensures steady { D.gives_steady disk → NoneCounted (reader_faults D.Reader.faults result) }
        // Where no table is named it isn't asked. Where it counted a fault nothing is changed.
        ensures unread { (state : DiskState) (read : Image) → D.told disk ≡ Some state → IsRead read state → NamesNoTable read
            → NoneCounted (reader_faults D.Reader.faults result) }
        ensures unmoved { HasCounted (reader_faults D.Reader.faults result) → IsAsBefore D.Watched disk (disk_behind result) }
        ensures at { (state : DiskState) (read : Image) → D.told disk ≡ Some state → IsRead read state
            → IfErr result (λ fail. FaultsAt read state (D.calls disk) (D.calls (disk_behind result)) (recovery_by fail.why)) }

        // A store may be opened on the disk again, whatever is answered.
        ensures again { (state now : DiskState) → D.told disk ≡ Some state → MayOpen state
            → D.told (disk_behind result) ≡ Some now → MayOpen now }
        ensures tells { (state : DiskState) → D.told disk ≡ Some state
            → (now : DiskState) × (D.told (disk_behind result) ≡ Some now) }

        // Meanwhile the disk is as it was, or is being repaired by a plan of what reads gave; and then it was, by just so many
        // changing calls, or where it failed by some of them.
        ensures meanwhile { (state : DiskState) (read : Image) → D.told disk ≡ Some state → IsRead read state
            → HoldsThroughout D.Watched disk (disk_behind result) (IsMeanwhile read state) }
        ensures repaired { (state : DiskState) (read : Image) → D.told disk ≡ Some state → IsRead read state
            → IfOk result (λ engine. IsRepaired read state (D.told engine.disk)) }
        ensures calls { (state : DiskState) (read : Image) (found : Finds read) (strays : List Name)
            → D.told disk ≡ Some state → IsRead read state → AreStrayNames read found.opening strays
            → IfOk result (λ engine. D.calls engine.disk ≡ after_calls (calls_to_open found (length strays)) (D.calls disk)) }
        ensures stopped { (state : DiskState) (read : Image) (found : Finds read) (strays : List Name)
            → D.told disk ≡ Some state → IsRead read state → AreStrayNames read found.opening strays
            → IfErr result (λ fail. MakesSome (calls_to_open found (length strays)) (D.calls disk) (D.calls fail.disk)) }
    {
        let Ok(deeper) = Vec::with_capacity(alloc, DEEPER_LEVELS) else {
            return Err(OpenFail {
                why: OpenError::NoMemory,
                disk,
                reader: None,
            });
        };
        let parts = match recover(alloc, disk, room) {
            Ok(parts) => parts,
            Err(fail) => return Err(fail),
        };
        let above = parts.active.number.saturating_add(1);
        let next_log = parts.state.next_log.max(above);
        let leveled = with_levels(parts.levels, deeper);
        Ok(Engine {
            alloc,
            disk: parts.disk,
            core: Core {
                version: Version::new(alloc, parts.frozen, leveled, parts.sealed),
                front: Front::new(alloc, parts.number, parts.active, parts.room),
                back: Back {
                    manifest: parts.manifest,
                    state: parts.state,
                    next_log,
                    epoch: 0,
                    waiting: parts.waiting,
                },
            },
            merging: None,
            collecting: Collecting {
                passing: None,
                tally: None,
            },
            removing: Removing {
                pins: Pins::new(alloc),
                stock: Stock::new(alloc),
            },
        })
    }
}

// The levels with these tables, those of level 0 first. There is room for the ones below it.
fn with_levels<H: HeldFile>(tables: Vec<Vec<Table<H>>>, deeper: Vec<Level<H>>) -> Levels<H>
    requires some { 1 ≤ length tables.items }
    requires room { length tables.items ≤ vec_capacity deeper + 1 }
    requires empty { deeper.items ≡ [] }
    ensures { AreLeveled tables.items result }
{
    let mut others = tables;
    let newest = others.remove(0);
    let mut all = deeper;
    for level in others {
        all.push_reserved(Level::new(level));
    }
    Levels::new(newest, all)
}
