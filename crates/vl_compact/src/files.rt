//! The files that a job is lent: one for each table that it is to make.

ghost use Rattle.std.specs.Prelude.{◌≡◌};
ghost use Rattle.vl_disk.specs.declared.name.Name.TheVariants.{Table as table_name};

use std::alloc::Global;
use std::sync::Arc;
use vl_disk::{DiskFail, Name, ReadFault, Writer};
use vl_table::TableShape;

/// A file that a disk has lent for the table with this number.
#[derive(Drop)]
pub struct Lent<W: Writer> {
    pub number: u32,
    pub writer: W,
    ghost named: { W.named writer ≡ table_name number },
}

/// A table that a job made: what wrote its file, of which each byte is durable, and what is known of it beside its blocks.
#[derive(Drop)]
pub struct Synced<W: Writer> {
    pub number: u32,
    pub writer: W,
    pub shape: Arc<TableShape, Global>,
    ghost named: { W.named writer ≡ table_name number },
}

impl<W: Writer> Lent<W> {
    ghost use Rattle.std.specs.Prelude.{◌++◌, ℕ, List, IfErr, IsSome, OnOk};
    ghost use Rattle.std.specs.Option.{ForSome};
    ghost use Rattle.vl_compact.specs.Lending.{FailsWriting, IsSteady};
    ghost use Rattle.vl_disk.specs.DiskState.{settled};
    ghost use Rattle.vl_disk.specs.declared.read_fault.ReadFault.TheVariants.{Disk};

    // Puts a piece behind the end of the file.
    #[tactic(auto, using(crate::proofs::Telling::tells_all, crate::proofs::Telling::tells_part))]
    pub fn append(&mut self, piece: &[u8]) -> Result<(), ReadFault>
        ensures number { self.new.number ≡ self.old.number }
        ensures bytes { (given : List ℕ) → ForSome (W.file self.old.writer) (λ f. f.bytes ≡ given)
            → OnOk result (ForSome (W.file self.new.writer) (λ f. f.bytes ≡ given ++ piece.now)) }
        ensures tells { IsSome (W.file self.old.writer) → IsSome (W.file self.new.writer) }
        ensures steady { OnOk result (IsSteady W.Writer self.old self.new) }
        ensures fails { IfErr result (FailsWriting W.Writer self.old self.new) }
    {
        match self.writer.append(piece) {
            Ok(()) => Ok(()),
            Err(DiskFail::NoMemory) => Err(ReadFault::NoMemory),
            Err(DiskFail::Failed) => Err(self.failed()),
        }
    }

    // Makes the file durable.
    #[tactic(auto, using(crate::proofs::Telling::tells_settled, crate::proofs::Telling::durable_settled))]
    pub fn sync(&mut self) -> Result<(), ReadFault>
        ensures number { self.new.number ≡ self.old.number }
        ensures settled { (bytes : List ℕ) → ForSome (W.file self.old.writer) (λ f. f.bytes ≡ bytes)
            → OnOk result (ForSome (W.file self.new.writer) (λ f. f ≡ settled bytes)) }
        ensures durable { OnOk result (ForSome (W.file self.new.writer) (λ f. f ≡ settled f.bytes)) }
        ensures tells { IsSome (W.file self.old.writer) → IsSome (W.file self.new.writer) }
        ensures steady { OnOk result (IsSteady W.Writer self.old self.new) }
        ensures fails { IfErr result (FailsWriting W.Writer self.old self.new) }
    {
        match self.writer.sync() {
            Ok(()) => Ok(()),
            Err(_) => Err(self.failed()),
        }
    }

    fn failed(&self) -> ReadFault
        ensures { result ≡ Disk (table_name self.now.number) }
    {
        ReadFault::Disk {
            name: Name::Table(self.number),
        }
    }
}
