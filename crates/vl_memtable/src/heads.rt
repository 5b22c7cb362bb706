// The head of a key: the number that its first eight bytes are, with zeros behind a shorter key.
ghost use Rattle.std.specs.Prelude.{◌≡◌, get_or, IfOk};
ghost use Rattle.vl_memtable.specs.Heads.{AreHeads, IsHead};

use std::alloc::{AllocError, Global};
use vl_model::Entry;

// How many bytes of a key its head has.
const HEAD_BYTES: usize = 8;

// The head of a key.
pub fn head_of(key: &[u8]) -> u64
    ensures { IsHead key.now result }
{
    let mut head: u64 = 0;
    for i in 0..HEAD_BYTES {
        head = head * 256 + byte_at(key, i) as u64;
    }
    head
}

// A byte of a key, and zero behind its last.
fn byte_at(key: &[u8], i: usize) -> u8
    ensures { result ≡ get_or key.now i 0 }
{
    match key.get(i) {
        Some(byte) => *byte,
        None => 0,
    }
}

// The heads of the keys of these entries.
pub fn heads_of(alloc: Global, entries: &[Entry]) -> Result<Vec<u64>, AllocError>
    ensures { IfOk result (λ heads. AreHeads heads.items entries.now) }
{
    let mut heads = Vec::new(alloc);
    heads.reserve(entries.len())?;
    for entry in entries {
        heads.push(head_of(entry.key.as_slice()))?;
    }
    Ok(heads)
}
