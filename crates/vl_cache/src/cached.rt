//! A reader that keeps what it read last.

ghost use Rattle.vl_cache.specs.Cache.{AreOf};

use crate::block::Block;
use crate::kept::Kept;
use lru::LruCache;
use std::alloc::Global;
use std::num::NonZeroUsize;
use vl_disk::{Failed, HeldFile, NoMemory, Reader};

/// How many reads a cache may keep.
pub const MAX_BLOCKS: u32 = 4096;

/// The longest read that is kept, in bytes.
pub const MAX_KEPT_BYTES: usize = 8192;

/// A reader over another one, and what was read last. Where it is read again of a file of that name that has the same bytes
/// there, the reader below isn't asked.
#[derive(Drop)]
pub struct Cached<R: Reader> {
    alloc: Global,
    inner: R,
    kept: LruCache<Block, Kept<R::Held>>,
    ghost told: { AreOf R.Held.bytes kept.entries },
}

impl<R: Reader + Drop> Cached<R> {
    ghost use Rattle.std.specs.Prelude.{◌≡◌, ◌≤◌, [], IfOk};
    ghost use Rattle.lru.specs.LruCache.{lru_cache};

    /// Room for so many reads, of which none is kept yet. Their memory is taken when they are.
    pub fn new(alloc: Global, inner: R, blocks: u32) -> Result<Self, NoMemory>
        requires some { 1 ≤ blocks }
        requires few { blocks ≤ 4096 }
        ensures inner { IfOk result (λ c. c.inner ≡ inner) }
        ensures kept { IfOk result (λ c. c.kept ≡ lru_cache [] blocks) }
    {
        let Some(room) = NonZeroUsize::new(blocks as usize) else {
            unreachable!();
        };
        let kept = LruCache::sparse(alloc, room)?;
        Ok(Cached { alloc, inner, kept })
    }
}

impl<R: Reader> Cached<R> {
    ghost use Rattle.std.specs.Prelude.{◌≡◌, ◌≤◌, ℕ, List, Some, IsFalse, IsTrue, length};
    ghost use Rattle.vl_disk.specs.DiskState.{bytes_at};
    ghost use Rattle.lru.specs.LruCache.{lru_cache, promoted};
    ghost use Rattle.vl_cache.specs.Cache.{IsHit, block_eq};
    ghost use Rattle.vl_cache.specs.Reads.{MayKeep};
    ghost use Rattle.vl_cache.specs.declared.kept.Kept.{Kept};

    // Fills a slice with what is kept of a block of the file, and says whether it is. It is then the read that was used last.
    fn fill(&mut self, held: &R::Held, block: Block, out: &mut [u8]) -> bool
        requires { block.len ≡ length out.old }
        ensures hit { IsTrue result → (kept : Kept R.Held)
            × IsHit R.Held.bytes R.Held.named self.old.kept.entries held.now block kept × (out.new ≡ kept.bytes.items)
            × (self.new.kept ≡ lru_cache (promoted (block_eq block) self.old.kept.entries) self.old.kept.cap) }
        ensures miss { IsFalse result → (kept : Kept R.Held)
            → IsHit R.Held.bytes R.Held.named self.old.kept.entries held.now block kept → ⊥ }
        ensures left { IsFalse result → (out.new ≡ out.old) × (self.new.kept ≡ self.old.kept) }
        ensures inner { self.new.inner ≡ self.old.inner }
    {
        let Some(kept) = self.kept.peek(&block) else {
            return false;
        };
        if !held.same(&kept.held, block.place, block.len) {
            return false;
        }
        out.copy_from_slice(&kept.bytes);
        self.kept.promote(&block);
        true
    }

    // Keeps what was read of a block of the file, where it isn't too long and there is memory.
    fn keep(&mut self, held: &R::Held, block: Block, bytes: &[u8])
        requires size { block.len ≡ length bytes.now }
        requires told { (all : List ℕ) → R.Held.bytes held.now ≡ Some all → bytes.now ≡ bytes_at block.place block.len all }
        ensures kept { MayKeep R.Held.is_clone held.now block bytes.now self.old.kept self.new.kept }
        ensures inner { self.new.inner ≡ self.old.inner }
    {
        if bytes.len() > MAX_KEPT_BYTES {
            return;
        }
        if let Ok(kept) = Kept::of(self.alloc, held, bytes) {
            drop(self.kept.put(block, kept));
        }
    }
}

impl<R: Reader> Reader for Cached<R> {
    ghost use Rattle.std.specs.Prelude.{◌≡◌, ◌+◌, ◌≤◌, length, IsErr, Ok, OnOk};
    ghost use Rattle.std.specs.Option.{ForSome};
    ghost use Rattle.vl_disk.specs.DiskState.{bytes_at};
    ghost use Rattle.vl_disk.specs.Faults.{HasCause};
    ghost use Rattle.lru.specs.LruCache.{lru_cache, promoted};
    ghost use Rattle.vl_cache.specs.Cache.{IsHit, block_eq};
    ghost use Rattle.vl_cache.specs.Reads.{GivesKept, Misses, block_of};
    ghost use Rattle.vl_cache.specs.declared.kept.Kept.{Kept};

    type Held = R::Held;

    ghost faults = { λ c. R.faults c.inner };

    fn read(&mut self, held: &R::Held, place: u64, out: &mut [u8]) -> Result<(), Failed>
        requires { place + length out.old ≤ R.Held.size held.now }
        ensures bytes { OnOk result (ForSome (R.Held.bytes held.now) (λ bytes. out.new ≡ bytes_at place (length out.old) bytes)) }
        ensures cause { HasCause (R.faults self.old.inner) (R.faults self.new.inner) (IsErr result) }

        // A hit asks the reader below nothing, and a miss once. What is kept then is used first.
        ensures hit { (kept : Kept R.Held) → let block = block_of R.Held.named held.now place (length out.old) in
            IsHit R.Held.bytes R.Held.named self.old.kept.entries held.now block kept
            → GivesKept block kept (self.old.inner, self.old.kept) (self.new.inner, self.new.kept) out.new result }
        ensures miss { let block = block_of R.Held.named held.now place (length out.old) in
            ((kept : Kept R.Held) → IsHit R.Held.bytes R.Held.named self.old.kept.entries held.now block kept → ⊥)
            → Misses R.Held.is_clone held.now block out.new self.old.kept self.new.kept result }
    {
        let block = Block {
            name: held.name(),
            place,
            len: out.len() as u64,
        };
        if self.fill(held, block, out) {
            return Ok(());
        }
        self.inner.read(held, place, out)?;
        self.keep(held, block, out);
        Ok(())
    }
}
