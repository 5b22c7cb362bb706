// A file that a disk in memory shares.
ghost use Rattle.std.specs.Prelude.{◌≡◌, ◌↔◌, ℕ, ◌+◌, ◌≤◌, length, Some, IsTrue};
ghost use Rattle.vl_disk.specs.DiskState.{bytes_at};
ghost use Rattle.vl_disk.specs.Held.{AgreeAt};
ghost use Rattle.vl_mem.specs.Held.{held_bytes, is_told, same_size, same_shared};

use std::alloc::{AllocError, Global};
use std::sync::Arc;
use vl_disk::{HeldFile, Name};

/// A file that a disk in memory shares. It tells its bytes.
#[derive(Drop)]
pub struct MemHeld {
    alloc: Global,
    name: Name,
    file: File,
}

// The disk made room for the bytes. Where there is none left to share them, a clone is a copy.
#[derive(Drop)]
enum File {
    Shared(Arc<Vec<u8>, Global>),
    Alone(Vec<u8>),
}

impl MemHeld {
    pub fn new(alloc: Global, name: Name, bytes: Vec<u8>) -> Self
        ensures bytes { held_bytes result ≡ bytes.items }
        ensures name { result.name ≡ name }
    {
        let file = match Arc::new(alloc, bytes) {
            Ok(shared) => File::Shared(shared),
            Err(refused) => File::Alone(refused.value),
        };
        MemHeld { alloc, name, file }
    }

    pub fn bytes(&self) -> &[u8]
        ensures { result.now ≡ held_bytes self.now }
    {
        match &self.file {
            File::Shared(shared) => shared.as_slice(),
            File::Alone(bytes) => bytes,
        }
    }
}

impl Clone for MemHeld {
    ghost is_clone = { λ held copy. (held_bytes copy ≡ held_bytes held) × (copy.name ≡ held.name) };

    fn clone(&self) -> Result<MemHeld, AllocError> {
        let file = match &self.file {
            File::Shared(shared) => File::Shared(shared.clone()?),
            File::Alone(bytes) => File::Alone(Vec::from_slice(self.alloc, bytes)?),
        };
        Ok(MemHeld {
            alloc: self.alloc,
            name: self.name,
            file,
        })
    }
}

impl HeldFile for MemHeld {
    ghost bytes = { λ held. Some (held_bytes held) };

    ghost size = { λ held. length (held_bytes held) };

    ghost sized = { λ held. same_size (held_bytes held) };

    ghost named = { λ held. held.name };

    ghost shared = { λ held copy same. same_shared (held_bytes held) (held_bytes copy) same.0 };

    ghost named_alike = { λ held copy same. same.1 };

    ghost alike = { λ held other none. is_told (held_bytes held) none };

    fn len(&self) -> u64 {
        self.bytes().len() as u64
    }

    fn name(&self) -> Name {
        self.name
    }

    fn same(&self, other: &MemHeld, place: u64, len: u64) -> bool
        ensures { IsTrue result ↔ ((self.now.name ≡ other.now.name)
            × AgreeAt place len (Some (held_bytes self.now)) (Some (held_bytes other.now))) }
    {
        self.name == other.name && part(self.bytes(), place, len) == part(other.bytes(), place, len)
    }
}

// The bytes of a range, of which none lie behind the end.
fn part(bytes: &[u8], place: u64, len: u64) -> &[u8]
    ensures { result.now ≡ bytes_at place len bytes.now }
{
    let from = (place as usize).min(bytes.len());
    let count = (len as usize).min(bytes.len() - from);
    &bytes[from..from + count]
}
