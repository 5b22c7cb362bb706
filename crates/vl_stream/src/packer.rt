//! Parts records into the frames of a stream, which are put into a sink as soon as they are full.
ghost use Rattle.std.specs.Prelude.{◌≡◌, ◌+◌, ◌++◌, ◌∷◌, [], ◌<◌, ◌≤◌, ◌^◌, ℕ, List, length, IfOk, IsErr, OnOk, Err};
ghost use Rattle.vl_stream.specs.Batches.{Write};
ghost use Rattle.vl_stream.specs.Grammar.{stream_grammar};
ghost use Rattle.vl_stream.specs.Packing.{Packs, PacksOn};
ghost use Rattle.vl_stream.specs.Streams.{frames, stream_header};
ghost use Rattle.vl_disk.specs.Faults.{HasCause};
ghost use Rattle.vl_disk.specs.declared.errors.DiskFail.TheVariants as fails;
ghost use Rattle.vl_stream.specs.Pieces.{End, Records};
ghost use Rattle.vl_frame.specs.Runs.{item_frame};
ghost use Rattle.vl_io.specs.Sink.{Takes};

use crate::batch::Batch;
use crate::frames::{changes_frame, end_frame, stream_header};
use std::alloc::{AllocError, Global};
use vl_disk::{DiskFail, Failed};
use vl_frame::HEADER_BYTES;
use vl_io::Sink;
use vl_model::{Change, Key};

/// A stream that is being written.
#[derive(Drop)]
pub struct Packer {
    alloc: Global,
    // Where the next frame is to stand, in bytes.
    at: u64,
    // How many records were put in.
    records: u64,
    // The records that wait for their frame.
    waiting: Batch,
}

impl Packer {
    /// Begins a stream that tells since this number.
    pub fn begin<K: Sink>(alloc: Global, since: u64, sink: &mut K) -> Result<Self, Failed>
        ensures header { OnOk result (Takes (K.held sink.old) (K.held sink.new) (stream_header since)) }
        ensures begun { IfOk result (λ p. Packs p.at p.records p.waiting.records.items [] []) }
        ensures cause { HasCause (K.faults sink.old) (K.faults sink.new) (IsErr result) }
    {
        sink.put(&stream_header(since))?;
        Ok(Packer {
            alloc,
            at: HEADER_BYTES as u64,
            records: 0,
            waiting: Batch::new(alloc),
        })
    }

    /// Puts a record in. A frame is written where the record doesn't join those that wait.
    pub fn add<K: Sink>(&mut self, sink: &mut K, key: Key, change: Change) -> Result<(), DiskFail>
        ensures packs { (bytes : List ℕ) (ws : List Write)
            → Packs self.old.at self.old.records self.old.waiting.records.items bytes ws
            → OnOk result (PacksOn (K.held sink.old) (K.held sink.new) bytes
            (λ now. Packs self.new.at self.new.records self.new.waiting.records.items now (ws ++ (key, change) ∷ []))) }
        ensures cause { HasCause (K.faults sink.old) (K.faults sink.new) (result ≡ Err fails.Failed) }
    {
        if self.waiting.admits(&change) {
            return Ok(self.join(key, change)?);
        }
        self.put_batch(sink)?;
        self.waiting = Batch::new(self.alloc);
        Ok(self.join(key, change)?)
    }

    // Puts a record behind those that wait.
    fn join(&mut self, key: Key, change: Change) -> Result<(), AllocError>
        ensures joined { OnOk result (self.new.waiting.records.items ≡ self.old.waiting.records.items ++ (key, change) ∷ []) }
        ensures counted { OnOk result (self.new.records ≡ self.old.records + 1) }
        ensures place { self.new.at ≡ self.old.at }
    {
        let Some(records) = self.records.checked_add(1) else {
            return Err(AllocError);
        };
        self.waiting.push(key, change)?;
        self.records = records;
        Ok(())
    }

    /// Writes what waits and the end of the stream, which tells up to this number. Gives how many records it has.
    pub fn end<K: Sink>(mut self, sink: &mut K, number: u64) -> Result<u64, DiskFail>
        ensures written { (bytes : List ℕ) (ws : List Write)
            → Packs self.at self.records self.waiting.records.items bytes ws
            → IfOk result (λ count. (count ≡ length ws)
            × PacksOn (K.held sink.old) (K.held sink.new) bytes (λ now. now ≡ frames stream_grammar number ws)) }
        ensures cause { HasCause (K.faults sink.old) (K.faults sink.new) (result ≡ Err fails.Failed) }
    {
        if !self.waiting.records.is_empty() {
            self.put_batch(sink)?;
            return self.put_end(sink, number);
        }
        self.put_end(sink, number)
    }

    // Writes the end of the stream.
    fn put_end<K: Sink>(&self, sink: &mut K, number: u64) -> Result<u64, DiskFail>
        ensures put { OnOk result (Takes (K.held sink.old) (K.held sink.new)
            (item_frame stream_grammar 0 self.now.at (End number self.now.records))) }
        ensures count { IfOk result (λ count. count ≡ self.now.records) }
        ensures cause { HasCause (K.faults sink.old) (K.faults sink.new) (result ≡ Err fails.Failed) }
    {
        let frame = end_frame(self.alloc, self.at, number, self.records)?;
        sink.put(&frame)?;
        Ok(self.records)
    }

    // Writes the frame of the records that wait.
    fn put_batch<K: Sink>(&mut self, sink: &mut K) -> Result<(), DiskFail>
        ensures put { OnOk result (Takes (K.held sink.old) (K.held sink.new)
            (item_frame stream_grammar 0 self.old.at (Records self.old.waiting.records.items))) }
        ensures place { OnOk result (self.new.at ≡ self.old.at
            + length (item_frame stream_grammar 0 self.old.at (Records self.old.waiting.records.items))) }
        ensures records { self.new.records ≡ self.old.records }
        ensures waiting { self.new.waiting ≡ self.old.waiting }
        ensures cause { HasCause (K.faults sink.old) (K.faults sink.new) (result ≡ Err fails.Failed) }
    {
        let frame = changes_frame(self.alloc, self.at, &self.waiting.records)?;
        let Some(at) = self.at.checked_add(frame.len() as u64) else {
            return Err(DiskFail::NoMemory);
        };
        sink.put(&frame)?;
        self.at = at;
        Ok(())
    }
}
