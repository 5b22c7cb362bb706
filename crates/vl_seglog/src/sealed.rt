//! A log that is appended to no more, which is read where something is wanted of it: a value that a pointer leads to, or
//! the frame at a place.

mod fill;
mod front;
mod scan;

ghost use Rattle.std.specs.Prelude.{◌≡◌, ◌+◌, ◌<◌, ◌≤◌, ◌^◌, length, true, Err, IfOk, IsErrOf, None, Some};
ghost use Rattle.vl_disk.specs.DiskState.{bytes_at};
ghost use Rattle.vl_disk.specs.declared.name.Name.TheVariants as names;
ghost use Rattle.vl_model.specs.Formats.{record_head};
ghost use Rattle.vl_model.specs.Keys.{is_key_length, is_value_length, tagged};
ghost use Rattle.vl_seglog.specs.Answers.{Answers};
ghost use Rattle.vl_seglog.specs.Sealed.{IsFilled, MayLead};
ghost use Rattle.vl_seglog.specs.Stored.{stored_at};
ghost use Rattle.vl_disk.specs.declared.read_fault.ReadFault.TheVariants as why;

use crate::fault::damaged;
use crate::record::record_head_bytes;
use crate::sealed::fill::{fill, is_inside};
use crate::sealed::front::{MAX_FRONT_BYTES, length_of_value, tag_in};
use std::alloc::Global;
use vl_disk::{HeldFile, ReadFault, Reader};
use vl_model::{Pointer, Value};

/// A log that is appended to no more, in a file that is held.
#[derive(Drop)]
pub struct SealedLog<H> {
    /// Of its file, which is the segment of its records' pointers too.
    pub number: u32,
    /// The format in its header.
    pub format: u32,
    pub held: H,
}

/// What became of a value that was to be read into the caller's bytes. Both say how long it is.
#[derive(Clone, Copy, Debug, PartialEq, Eq)]
pub enum Filled {
    /// It stands at their front.
    Here(usize),
    /// There are too few of them, and they are as they were.
    Small(usize),
}

// Where the bytes of a value lie, and its tag.
#[derive(Clone, Copy)]
struct Lying {
    place: u64,
    length: usize,
    tag: u8,
}

impl<H: HeldFile> SealedLog<H> {
    /// The value that a pointer leads to, whose record is one of this key. It is read at its place alone: first the
    /// record's head and key, then the value into memory of its own. No check sum is computed. Where the pointer leads to
    /// no such value its place is damaged; where it leads out of the file, or its length is none of the key's, nothing is
    /// read for that. The log that has the pointer's segment as its number is the caller's to find.
    pub fn read_at<R: Reader<Held = H>>(
        &self,
        alloc: Global,
        reader: &mut R,
        pointer: Pointer,
        key: &[u8],
    ) -> Result<Value, ReadFault>
        requires { pointer.segment ≡ self.now.number }
        ensures answers { Answers (R.faults reader.old) (R.faults reader.new) self.now.number (H.bytes self.now.held)
            (λ bytes value. stored_at self.now.format bytes pointer key.now ≡ Some value)
            (λ bytes place. (stored_at self.now.format bytes pointer key.now ≡ None)
            × (place ≡ pointer.place)) result }
        ensures refused { (MayLead self.now.format (H.size self.now.held) pointer (length key.now) → ⊥)
            → (reader.new ≡ reader.old) × (result ≡ Err (why.Damaged (names.Log self.now.number) pointer.place)) }
    {
        let lying = self.find(reader, pointer, key)?;
        let mut bytes = Vec::new(alloc);
        bytes.resize(lying.length, 0)?;
        fill(reader, &self.held, self.number, lying.place, &mut bytes)?;
        Ok(Value::new(bytes, lying.tag)?)
    }

    /// The same without memory: the value is read to the front of the caller's bytes, where it fits. After a fault these
    /// may be anything.
    pub fn read_into<R: Reader<Held = H>>(
        &self,
        reader: &mut R,
        pointer: Pointer,
        key: &[u8],
        out: &mut [u8],
    ) -> Result<Filled, ReadFault>
        requires { pointer.segment ≡ self.now.number }
        ensures answers { Answers (R.faults reader.old) (R.faults reader.new) self.now.number (H.bytes self.now.held)
            (λ bytes filled. IsFilled (stored_at self.now.format bytes pointer key.now) out.old out.new filled)
            (λ bytes place. (stored_at self.now.format bytes pointer key.now ≡ None)
            × (place ≡ pointer.place)) result }
        ensures refused { (MayLead self.now.format (H.size self.now.held) pointer (length key.now) → ⊥)
            → (reader.new ≡ reader.old) × (result ≡ Err (why.Damaged (names.Log self.now.number) pointer.place)) }
        ensures no_memory { IsErrOf result why.NoMemory → ⊥ }
    {
        let lying = self.find(reader, pointer, key)?;
        if lying.length > out.len() {
            return Ok(Filled::Small(lying.length));
        }
        fill(
            reader,
            &self.held,
            self.number,
            lying.place,
            &mut out[..lying.length],
        )?;
        Ok(Filled::Here(lying.length))
    }

    // Where the value lies that a pointer leads to, by one read of its record's head and key.
    fn find<R: Reader<Held = H>>(
        &self,
        reader: &mut R,
        pointer: Pointer,
        key: &[u8],
    ) -> Result<Lying, ReadFault>
        ensures answers { Answers (R.faults reader.old) (R.faults reader.new) self.now.number (H.bytes self.now.held)
            (λ bytes lying. stored_at self.now.format bytes pointer key.now
            ≡ Some (tagged (bytes_at lying.place lying.length bytes) lying.tag))
            (λ bytes place. (stored_at self.now.format bytes pointer key.now ≡ None)
            × (place ≡ pointer.place)) result }
        ensures inside { IfOk result (λ lying. lying.place + lying.length ≤ H.size self.now.held) }
        ensures refused { (MayLead self.now.format (H.size self.now.held) pointer (length key.now) → ⊥)
            → (reader.new ≡ reader.old) × (result ≡ Err (why.Damaged (names.Log self.now.number) pointer.place)) }
        ensures no_memory { IsErrOf result why.NoMemory → ⊥ }
    {
        let Some(length) = length_of_value(self.format, pointer, key) else {
            return Err(damaged(self.number, pointer.place));
        };
        if !is_inside(&self.held, pointer.place, pointer.length as u64) {
            return Err(damaged(self.number, pointer.place));
        }
        let mut buffer = [0; MAX_FRONT_BYTES];
        let front = record_head_bytes(self.format) + key.len();
        self.find_in(reader, pointer, key, length, &mut buffer[..front])
    }

    // The same by the bytes that a head and the key have, where all of the record is in the file, and a value of so many
    // bytes makes it as long as the pointer says.
    fn find_in<R: Reader<Held = H>>(
        &self,
        reader: &mut R,
        pointer: Pointer,
        key: &[u8],
        value_len: usize,
        front: &mut [u8],
    ) -> Result<Lying, ReadFault>
        requires key { is_key_length (length key.now) ≡ true }
        requires value { is_value_length self.now.format value_len ≡ true }
        requires front { length front.old ≡ record_head self.now.format + length key.now }
        requires whole { pointer.length ≡ length front.old + value_len }
        requires inside { pointer.place + pointer.length ≤ H.size self.now.held }
        requires fits { pointer.place + pointer.length < 2 ^ 64 }
        ensures answers { Answers (R.faults reader.old) (R.faults reader.new) self.now.number (H.bytes self.now.held)
            (λ bytes lying. stored_at self.now.format bytes pointer key.now
            ≡ Some (tagged (bytes_at lying.place lying.length bytes) lying.tag))
            (λ bytes place. (stored_at self.now.format bytes pointer key.now ≡ None)
            × (place ≡ pointer.place)) result }
        ensures inside { IfOk result (λ lying. lying.place + lying.length ≤ H.size self.now.held) }
        ensures no_memory { IsErrOf result why.NoMemory → ⊥ }
    {
        let front_bytes = front.len() as u64;
        fill(reader, &self.held, self.number, pointer.place, front)?;
        let Some(tag) = tag_in(self.format, front, key, value_len) else {
            return Err(damaged(self.number, pointer.place));
        };
        Ok(Lying {
            place: pointer.place + front_bytes,
            length: value_len,
            tag,
        })
    }
}
