ghost use Rattle.std.specs.Prelude.{◌≡◌, ◌+◌, ◌<◌, ◌≤◌, ◌^◌, ◌∷◌, ℕ, IfOk, IfSome, None, Ok};
ghost use Rattle.byteorder.specs.Endian.{big_bytes};
ghost use Rattle.vl_seglog.specs.Answers.{Answers};
ghost use Rattle.vl_seglog.specs.Bodies.{IsFrame};
ghost use Rattle.vl_seglog.specs.Placed.{IsFrameAt};
ghost use Rattle.vl_seglog.specs.Reading.{frame_of};
ghost use Rattle.vl_seglog.specs.Sealed.{HasLength, IsFound, IsTorn};

use crate::fault::damaged;
use crate::frame::Frame;
use crate::read::read_next;
use crate::sealed::SealedLog;
use crate::sealed::fill::{fill, is_inside};
use byteorder::{BigEndian, ByteOrder};
use std::alloc::Global;
use vl_disk::{HeldFile, ReadFault, Reader};
use vl_frame::{FRAME_BYTES, HEAD_BYTES};

impl<H: HeldFile> SealedLog<H> {
    /// The frame that stands at a place, with the places of its records; the next one stands behind it. None at the
    /// file's end and past it, where nothing is read. From place 16 on these are the log's frames in their order. Of the
    /// file this frame alone is in memory. Where bytes stand, and no frame, the place is damaged.
    pub fn scan_from<R: Reader<Held = H>>(
        &self,
        alloc: Global,
        reader: &mut R,
        place: u64,
    ) -> Result<Option<Frame>, ReadFault>
        ensures answers { Answers (R.faults reader.old) (R.faults reader.new) self.now.number (H.bytes self.now.held)
            (λ bytes found. IsFound self.now.format self.now.number place bytes found)
            (λ bytes at. IsTorn self.now.format self.now.number place bytes × (at ≡ place)) result }
        ensures past { H.size self.now.held ≤ place → (reader.new ≡ reader.old) × (result ≡ Ok None) }
        ensures place { IfOk result (λ found. IfSome found (IsFrameAt self.now.format self.now.number place)) }
        ensures lawful { IfOk result (λ found. IfSome found (λ frame. IsFrame self.now.format (frame_of frame))) }
    {
        if place >= self.held.len() {
            return Ok(None);
        }
        let length = self.length_at(reader, place)?;
        let mut bytes = Vec::new(alloc);
        bytes.resize(length as usize, 0)?;
        fill(reader, &self.held, self.number, place, &mut bytes)?;
        match read_next(alloc, self.format, &bytes, self.number, place)? {
            None => Err(damaged(self.number, place)),
            Some((frame, _)) => Ok(Some(frame)),
        }
    }

    // How many bytes a frame at a place has, as its head says.
    fn length_at<R: Reader<Held = H>>(&self, reader: &mut R, place: u64) -> Result<u64, ReadFault>
        requires { place < H.size self.now.held }
        ensures answers { Answers (R.faults reader.old) (R.faults reader.new) self.now.number (H.bytes self.now.held)
            (λ bytes n. HasLength self.now.number place bytes n)
            (λ bytes at. IsTorn self.now.format self.now.number place bytes × (at ≡ place)) result }
        ensures inside { IfOk result (λ n. place + n ≤ H.size self.now.held) }
    {
        if !is_inside(&self.held, place, FRAME_BYTES as u64) {
            return Err(damaged(self.number, place));
        }
        let mut head = [0; HEAD_BYTES];
        fill(reader, &self.held, self.number, place, &mut head)?;
        let length = body_length(&head) + FRAME_BYTES as u64;
        if !is_inside(&self.held, place, length) {
            return Err(damaged(self.number, place));
        }
        Ok(length)
    }
}

// How many bytes a frame's body has, as its head says.
fn body_length(head: &[u8; HEAD_BYTES]) -> u64
    ensures fits { result < 2 ^ 32 }
    ensures is { (first n : ℕ) → n < 2 ^ 32 → head.now ≡ first ∷ big_bytes 4 n → result ≡ n }
{
    BigEndian::read_u32(&head[1..]) as u64
}
