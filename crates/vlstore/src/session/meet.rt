ghost use Rattle.std.specs.Prelude.{◌≡◌, IfOk, IsOk};
ghost use Rattle.vlstore.specs.Knowing.{Meets, noted};

use super::Session;
use crate::note::Note;
use std::alloc::AllocError;
use vl_disk::Disk;

impl<D: Disk> Session<D> {
    /// What this session has seen, for another session of this store. No memory is wanted today, and it is
    /// always given.
    pub fn note(&mut self) -> Result<Note<D>, AllocError>
        ensures ok { IsOk result }
        ensures same { self.new ≡ self.old }
        ensures note { IfOk result (λ note. note ≡ noted self.old) }
    {
        let token = self.lock.split(&mut self.token)?;
        Ok(Note { token })
    }

    /// Makes what is noted a part of what this session has seen. It waits for nobody. The note is of this
    /// store, by condition: a program without contracts sends it as a result of a thread, and not by a channel,
    /// which loses that.
    pub fn meet(&mut self, note: Note<D>)
        requires { note.store ≡ self.old.store }
        ensures { Meets self.old self.new note }
    {
        let Note { token } = note;
        self.lock.meet(&mut self.token, token);
    }
}
