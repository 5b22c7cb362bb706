ghost use Rattle.vl_mem.specs.MemDisk.{file_by};

use crate::mem_writer::MemWriter;
use vl_disk::{DiskFail, Failed, Writer};

/// What writes a file that a disk in memory has lent, and never fails, whatever calls the writer in it was to fail at. It
/// tells the file.
#[derive(Drop)]
pub struct SteadyWriter {
    pub(crate) writer: MemWriter,
}

impl Writer for SteadyWriter {
    ghost use Rattle.vl_disk.specs.Faults.{never};

    ghost named = { λ writer. writer.writer.name };

    ghost file = { λ writer. file_by writer.writer };

    ghost faults = { λ _. never };

    fn append(&mut self, piece: &[u8]) -> Result<(), DiskFail> {
        self.writer.take_all(piece)?;
        Ok(())
    }

    fn sync(&mut self) -> Result<(), Failed> {
        self.writer.settle();
        Ok(())
    }
}
