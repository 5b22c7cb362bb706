// Laws of steps under a store's lock: each is the contract of a function that does nothing.
ghost use Rattle.std.specs.List.{AllByRecursion};
ghost use Rattle.std.specs.Prelude.{◌≡◌, ◌+◌, ◌++◌, ℕ, Bool, List, [], None, length, true};
ghost use Rattle.vl_engine_laws.specs.MayStep.{Fits};
ghost use Rattle.vl_engine_laws.specs.Represents.{Represents};
ghost use Rattle.vl_space.specs.Collecting.{Collects};
ghost use Rattle.vl_space.specs.Removing.{Removes};
ghost use Rattle.vl_engine_model.specs.LockHistory.{HasOpen, IsLegal, commits_of, nothing_open};
ghost use Rattle.vl_engine_model.specs.declared.layout.Layout.{Layout};
ghost use Rattle.vl_engine_model.specs.declared.lock_history.LockEntry.{LockEntry};
ghost use Rattle.vl_model.specs.History.{History};
ghost use Rattle.vl_seglog.specs.declared.sealed.SealedLog.{SealedLog};
ghost use Rattle.vlstore.specs.Handing.{HasLasted};
ghost use Rattle.vlstore.specs.Knowing.{GoesOn, IsOwnPass, IsOwnTicket, Knows, LeavesPass, LeavesTicket};
ghost use Rattle.vlstore.specs.Lists.{history_by, numbers_from, numbers_put};
ghost use Rattle.vlstore.specs.Standing.{IsWhole, NeverFails, Parts, Stands};
ghost use Rattle.vlstore.specs.declared.locked.Origin.{Origin};

use vl_disk::{Disk, HeldFile};

/// The commits of lawful steps have the numbers behind that of the last one before, in order and each once.
pub fn commits_are_numbered_once()
    ensures { (number : ℕ) (es : List LockEntry) → IsLegal number es
        → numbers_put es ≡ numbers_from (number + 1) (length (commits_of es)) }
{}

/// An engine in which nothing lives and nothing is open, as one that was just opened, stands for no steps: so a store
/// may be made of it.
pub fn an_opened_engine_stands_for_no_steps<D: Disk, L>()
    ensures { (o : Origin) (tells : Bool) (x : Parts D.Held L) → x.merging ≡ None → HasOpen nothing_open o.layout
        → (tells ≡ true → IsWhole D.Held.bytes x (history_by o []) o.layout)
        → Stands D.Held.bytes (NeverFails D.faults D.Reader.faults D.Writer.faults) o tells [] x }
{}

/// A log over which a pass may go, and that lasted at a moment that a session had seen, lasts as well for what it has seen later.
pub fn what_lasted_has_lasted<H: HeldFile>()
    ensures { (v w : Knows) (log : SealedLog H) → GoesOn v w → HasLasted v H.bytes log → HasLasted w H.bytes log }
{}

/// What a session began stays its own behind steps of it that begin, commit and end other things.
pub fn what_was_begun_stays_own()
    ensures { (v w : Knows) (ticket number : ℕ) (more : List LockEntry) → w.own ≡ v.own ++ more
        → AllByRecursion (λ (e : LockEntry). LeavesTicket ticket e.step) more → IsOwnTicket v ticket number
        → IsOwnTicket w ticket number }
{}

/// And so does a pass that it picked, behind steps that neither begin nor end one.
pub fn what_was_picked_stays_own()
    ensures { (v w : Knows) (segment : ℕ) (more : List LockEntry) → w.session ≡ v.session → w.own ≡ v.own ++ more
        → AllByRecursion (λ (e : LockEntry). LeavesPass e.step) more → IsOwnPass v segment → IsOwnPass w segment }
{}

/// An engine that was opened is whole, by what its opening says of a history and of the layout at its start.
pub fn an_opened_engine_is_whole<H: HeldFile, L>()
    ensures { (x : Parts H L) (h : History) (l : Layout) → x.merging ≡ None → l.job ≡ None
        → Represents H.bytes x.core x.told h l → Fits x.told x.core h l → Collects x.core x.collecting l
        → Removes x.core x.removing l → IsWhole H.bytes x h l }
{}
