ghost use Rattle.std.specs.Prelude.{◌≡◌};
ghost use Rattle.vl_engine_laws.specs.Represents.{Fronts, Represents, StandsFor};
ghost use Rattle.vl_engine_laws.specs.MayStep.{Fits};
ghost use Rattle.vl_front.specs.Front.{IsPruned};
ghost use Rattle.vl_engine_model.specs.Ruling.{ended};
ghost use Rattle.vl_engine_model.specs.declared.layout.Layout.{Layout};
ghost use Rattle.vl_model.specs.History.{History, last_number};
ghost use Rattle.vl_space.specs.Pinning.{unpinned};
ghost use Rattle.vl_space.specs.Removing.{Removes};

use crate::{Engine, Txn, View};
use vl_cache::Cached;
use vl_disk::Disk;

impl<D: Disk> Engine<D> {
    /// Gives up a transaction, and what it has written with it. It wants no memory.
    pub fn forget(&mut self, txn: Txn<D::Held, Cached<D::Reader>>)
        ensures decides { (h : History) (l : Layout) → Fronts self.old.core h l → Fronts self.new.core h (ended txn.ticket l) }
        ensures stands { (h : History) (l : Layout) → StandsFor D.Held.bytes self.old.core h l
            → StandsFor D.Held.bytes self.new.core h (ended txn.ticket l) }
        ensures represents { (h : History) (l : Layout) → Represents D.Held.bytes self.old.core (D.told self.old.disk) h l
            → Represents D.Held.bytes self.new.core (D.told self.new.disk) h (ended txn.ticket l) }
        // What steps on files ask stays.
        ensures fits { (h : History) (l : Layout) → Fits (D.told self.old.disk) self.old.core h l
            → Fits (D.told self.new.disk) self.new.core h (ended txn.ticket l) }
        ensures removes { (l : Layout) → Removes self.old.core self.old.removing l
            → Removes self.new.core self.new.removing (ended txn.ticket l) }
        ensures disk { self.new.disk ≡ self.old.disk }
        ensures back { self.new.core.back ≡ self.old.core.back }
        ensures merging { self.new.merging ≡ self.old.merging }
        ensures collecting { self.new.collecting ≡ self.old.collecting }
        ensures stock { self.new.removing.stock ≡ self.old.removing.stock }
        ensures removing { self.new.removing ≡ unpinned txn.ticket self.old.removing }
        ensures version { self.new.core.version ≡ self.old.core.version }
        // No key of a commit at or below the floor is named any more.
        ensures pruned { IsPruned self.new.core.front }
        ensures logs { self.new.core.version.behind.logs ≡ self.old.core.version.behind.logs }
    {
        self.end(txn.ticket());
    }

    /// Ends a view. It wants no memory.
    pub fn release(&mut self, view: View<D::Held, Cached<D::Reader>>)
        ensures decides { (h : History) (l : Layout) → Fronts self.old.core h l → Fronts self.new.core h (ended view.ticket l) }
        ensures stands { (h : History) (l : Layout) → StandsFor D.Held.bytes self.old.core h l
            → StandsFor D.Held.bytes self.new.core h (ended view.ticket l) }
        ensures represents { (h : History) (l : Layout) → Represents D.Held.bytes self.old.core (D.told self.old.disk) h l
            → Represents D.Held.bytes self.new.core (D.told self.new.disk) h (ended view.ticket l) }
        ensures fits { (h : History) (l : Layout) → Fits (D.told self.old.disk) self.old.core h l
            → Fits (D.told self.new.disk) self.new.core h (ended view.ticket l) }
        ensures removes { (l : Layout) → Removes self.old.core self.old.removing l
            → Removes self.new.core self.new.removing (ended view.ticket l) }
        ensures disk { self.new.disk ≡ self.old.disk }
        ensures back { self.new.core.back ≡ self.old.core.back }
        ensures merging { self.new.merging ≡ self.old.merging }
        ensures collecting { self.new.collecting ≡ self.old.collecting }
        ensures stock { self.new.removing.stock ≡ self.old.removing.stock }
        ensures removing { self.new.removing ≡ unpinned view.ticket self.old.removing }
        ensures version { self.new.core.version ≡ self.old.core.version }
        // No key of a commit at or below the floor is named any more.
        ensures pruned { IsPruned self.new.core.front }
        ensures logs { self.new.core.version.behind.logs ≡ self.old.core.version.behind.logs }
    {
        self.end(view.ticket());
    }

    // Ends what has this ticket.
    pub(super) fn end(&mut self, ticket: u32)
        ensures decides { (h : History) (l : Layout) → Fronts self.old.core h l → Fronts self.new.core h (ended ticket l) }
        ensures stands { (h : History) (l : Layout) → StandsFor D.Held.bytes self.old.core h l
            → StandsFor D.Held.bytes self.new.core h (ended ticket l) }
        ensures represents { (h : History) (l : Layout) → Represents D.Held.bytes self.old.core (D.told self.old.disk) h l
            → Represents D.Held.bytes self.new.core (D.told self.new.disk) h (ended ticket l) }
        ensures fits { (h : History) (l : Layout) → Fits (D.told self.old.disk) self.old.core h l
            → Fits (D.told self.new.disk) self.new.core h (ended ticket l) }
        ensures removes { (l : Layout) → Removes self.old.core self.old.removing l
            → Removes self.new.core self.new.removing (ended ticket l) }
        ensures disk { self.new.disk ≡ self.old.disk }
        ensures back { self.new.core.back ≡ self.old.core.back }
        ensures merging { self.new.merging ≡ self.old.merging }
        ensures collecting { self.new.collecting ≡ self.old.collecting }
        ensures stock { self.new.removing.stock ≡ self.old.removing.stock }
        ensures removing { self.new.removing ≡ unpinned ticket self.old.removing }
        ensures version { self.new.core.version ≡ self.old.core.version }
        // No key of a commit at or below the floor is named any more.
        ensures pruned { IsPruned self.new.core.front }
        ensures logs { self.new.core.version.behind.logs ≡ self.old.core.version.behind.logs }
    {
        self.core.front.end(ticket);
        self.removing.pins.end(ticket);
    }

    /// The number of the last commit.
    pub fn number(&self) -> u64
        ensures { (h : History) (l : Layout) → Fronts self.now.core h l → result ≡ last_number h }
    {
        self.core.front.oracle.last()
    }

    /// The disk. What lives may still read.
    pub fn close(self) -> D
        ensures { result ≡ self.disk }
    {
        self.disk
    }
}
