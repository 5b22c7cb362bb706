ghost use Rattle.std.specs.Prelude.{◌≡◌, None};

use crate::folder_error::Trouble;
use crate::lent::Lent;
use crate::open_file::OpenFile;
use vl_disk::{DiskFail, Failed, Name, Writer};

/// What writes one file of a folder, over a descriptor of its own. It tells no bytes.
#[derive(Drop)]
pub struct FolderWriter {
    name: Name,
    lent: Lent,
    faults: u64,
}

impl FolderWriter {
    ghost use Rattle.vl_disk.specs.Faults.{HasCause, IsNewCount};

    #[tactic(auto, using(vl_disk::specs::laws::Counting::counts_from_zero))]
    pub fn new(name: Name, lent: Lent) -> Self
        ensures faults { IsNewCount ⊥ (⟦<FolderWriter as Writer>⟧.faults result) }
        ensures name { ⟦<FolderWriter as Writer>⟧.named result ≡ name }
    {
        FolderWriter {
            name,
            lent,
            faults: 0,
        }
    }

    /// The file's name, and the file.
    pub fn into_parts(self) -> (Name, OpenFile) {
        let FolderWriter { name, lent, .. } = self;
        (name, lent.file)
    }

    fn count(&mut self, trouble: Trouble)
        ensures cause { HasCause self.old.faults self.new.faults (Unit {0}) }
        ensures name { self.new.name ≡ self.old.name }
    {
        self.faults = self.faults.saturating_add(1);
        self.lent.common.note(self.name, trouble);
    }
}

impl Writer for FolderWriter {
    ghost use Rattle.std.specs.Prelude.{true, IsErr, OnOk};
    ghost use Rattle.vl_disk.specs.Faults.{HasCause};

    ghost named = { λ writer. writer.name };

    ghost file = { λ _. None };

    ghost faults = { λ writer. writer.faults };

    fn append(&mut self, piece: &[u8]) -> Result<(), DiskFail> {
        if let Err(trouble) = self.lent.file.append(piece) {
            self.count(trouble);
            return Err(DiskFail::Failed);
        }
        Ok(())
    }

    fn sync(&mut self) -> Result<(), Failed>
        ensures named { self.new.name ≡ self.old.name }
        ensures cause { HasCause self.old.faults self.new.faults (IsErr result) }

        // The names of the file's folder are durable too, and so its own.
        ensures folder { OnOk result (self.new.lent.folder.durable ≡ true) }
    {
        if let Err(trouble) = self.lent.sync() {
            self.count(trouble);
            return Err(Failed);
        }
        Ok(())
    }
}
