//! Reads a stream from a source, frame by frame.
ghost use Rattle.std.specs.Prelude.{◌≡◌, ◌≢◌, ◌⊎◌, ◌+◌, ◌++◌, ◌<◌, ◌≤◌, ◌^◌, [], ℕ, List, drop, false, length, take, true};
ghost use Rattle.std.specs.Prelude.{Err, IfErr, IfNone, IfOk, IfSome, IsErr, Ok, OnOk, Some};
ghost use Rattle.byteorder.specs.Endian.{big_bytes};
ghost use Rattle.vl_stream.specs.Batches.{Write};
ghost use Rattle.vl_stream.specs.Grammar.{stream_grammar};
ghost use Rattle.vl_stream.specs.Pieces.{AreChanges, End, Piece, Records, end_body};
ghost use Rattle.vl_stream.specs.Reading.{Gave, GaveBatch, GaveHeader, IsFrameLong, SaysLength};
ghost use Rattle.vl_stream.specs.Streams.{DamagedAt, Holds, IsAbove, IsNext, IsNoBackup, Whole, last_key, stream_format};
ghost use Rattle.vl_stream.specs.declared.fail.StreamFail.TheVariants as fails;
ghost use Rattle.vl_stream.specs.declared.batch.Batch.{Batch};
ghost use Rattle.vl_stream.specs.declared.reader.Found.TheVariants as found;
ghost use Rattle.vl_stream.specs.laws.GrammarLaws.{max_body};
ghost use Rattle.vl_disk.specs.Faults.{HasCause};
ghost use Rattle.vl_frame.specs.Header.{HasFormat};
ghost use Rattle.vl_frame.specs.Runs.{StandsAt, StandsNone};
ghost use Rattle.vl_frame.specs.declared.kinds.FileKind.TheVariants.{Backup};
ghost use Rattle.vl_io.specs.Source.{HandsOver};

use crate::batch::Batch;
use crate::fail::StreamFail;
use crate::fill::fill;
use crate::frames::STREAM_FORMAT;
use crate::read::{read_changes, read_end};
use std::alloc::{AllocError, Global};
use vl_disk::Failed;
use vl_frame::{
    FRAME_BYTES, FileKind, FrameKind, HEAD_BYTES, HEADER_BYTES, read_frame, take_u8, take_u32,
    take_u64,
};
use vl_io::Source;
use vl_model::Key;

/// The longest body of a frame: one record with the longest key and the longest value. What says that it is longer is damaged,
/// and isn't read.
const MAX_BODY_BYTES: usize = 8_392_716;

/// A stream that is being read.
#[derive(Drop)]
pub struct StreamReader {
    alloc: Global,
    // Where the next frame stands, in bytes.
    at: u64,
    // How many records were read.
    records: u64,
    // The key of the last one; an empty one before the first.
    last: Key,
}

// What a frame says.
#[derive(Drop)]
enum Found {
    Batch(Batch, Key),
    End,
}

impl StreamReader {
    /// Reads the header of a stream.
    pub fn begin<S: Source>(alloc: Global, source: &mut S) -> Result<Self, StreamFail>
        ensures begun { (input : List ℕ) → S.left source.old ≡ Some input
            → OnOk result (GaveHeader input (S.left source.new)) }
        ensures first { IfOk result (λ r. (r.at ≡ 16) × (r.records ≡ 0) × (r.last ≡ [])) }
        ensures other { (input : List ℕ) → S.left source.old ≡ Some input → result ≡ Err fails.NotABackup → IsNoBackup input }
        ensures newer { (input : List ℕ) (format : ℕ) → S.left source.old ≡ Some input
            → result ≡ Err (fails.NewerFormat format) → HasFormat Backup input format × (format ≢ stream_format) }
        ensures sound { (place : ℕ) → result ≡ Err (fails.Damaged place) → ⊥ }
        ensures cause { HasCause (S.faults source.old) (S.faults source.new) (result ≡ Err fails.Read) }
    {
        let mut letters = [0; 4];
        if fill(source, &mut letters)? < 4 {
            return Err(StreamFail::NotABackup);
        }
        if letters != *b"VBAK" {
            return Err(StreamFail::NotABackup);
        }
        let mut numbers = [0; 12];
        if fill(source, &mut numbers)? < 12 {
            return Err(StreamFail::NotABackup);
        }
        let Some((format, since)) = take_numbers(&numbers) else {
            return Err(StreamFail::NotABackup);
        };
        if format != STREAM_FORMAT {
            return Err(StreamFail::NewerFormat(format));
        }
        Ok(StreamReader {
            alloc,
            at: HEADER_BYTES as u64,
            records: 0,
            last: Key::copy_of(alloc, &[])?,
        })
    }

    /// Reads the next batch. None is the end of a stream that is whole.
    pub fn next<S: Source>(&mut self, source: &mut S) -> Result<Option<Batch>, StreamFail>
        ensures batch { (bytes : List ℕ) → S.left source.old ≡ Some bytes → IfOk result (λ read. IfSome read (λ batch.
            GaveBatch self.old.at self.old.last self.old.records bytes self.new.at self.new.last self.new.records
            (S.left source.new) batch.records.items)) }
        ensures whole { (bytes : List ℕ) → S.left source.old ≡ Some bytes → IfOk result (λ read. IfNone read
            (Holds stream_grammar self.old.at self.old.last self.old.records bytes [] Whole)) }
        ensures damaged { (bytes : List ℕ) (place : ℕ) → S.left source.old ≡ Some bytes
            → result ≡ Err (fails.Damaged place)
            → Holds stream_grammar self.old.at self.old.last self.old.records bytes [] (DamagedAt place) }
        ensures other { result ≡ Err fails.NotABackup → ⊥ }
        ensures newer { (format : ℕ) → result ≡ Err (fails.NewerFormat format) → ⊥ }
        // The records of a batch are lawful, whatever the source tells.
        ensures lawful { IfOk result (λ read. IfSome read (λ batch. AreChanges batch.records.items)) }
        // Behind the end nothing is left.
        ensures drained { (bytes : List ℕ) → S.left source.old ≡ Some bytes
            → IfOk result (λ read. IfNone read (S.left source.new ≡ Some [])) }
        ensures counted { IfOk result (λ read. IfNone read (self.new.records ≡ self.old.records)) }
        ensures shorter { IfOk result (λ read. IfSome read (λ _. S.budget source.new < S.budget source.old)) }
        ensures cause { HasCause (S.faults source.old) (S.faults source.new) (result ≡ Err fails.Read) }
    {
        let Some(frame) = take_frame(self.alloc, source)? else {
            return Err(StreamFail::Damaged { place: self.at });
        };
        let found = read_piece(
            self.alloc,
            self.at,
            self.last.as_slice(),
            self.records,
            &frame,
        )?;
        match found {
            None => Err(StreamFail::Damaged { place: self.at }),
            Some(Found::Batch(batch, last)) => {
                self.pass(frame.len(), batch.records.len())?;
                self.last = last;
                Ok(Some(batch))
            }
            Some(Found::End) => {
                self.pass(frame.len(), 0)?;
                if fill(source, &mut [0; 1])? > 0 {
                    return Err(StreamFail::Damaged { place: self.at });
                }
                Ok(None)
            }
        }
    }

    /// How many records were read.
    pub fn records(&self) -> u64
        ensures { result ≡ self.now.records }
    {
        self.records
    }

    // Goes on behind a frame of so many bytes and records.
    fn pass(&mut self, bytes: usize, records: usize) -> Result<(), AllocError>
        ensures place { OnOk result (self.new.at ≡ self.old.at + bytes) }
        ensures records { OnOk result (self.new.records ≡ self.old.records + records) }
        ensures last { self.new.last ≡ self.old.last }
        ensures alloc { self.new.alloc ≡ self.old.alloc }
    {
        let at = self.at.checked_add(bytes as u64);
        let read = self.records.checked_add(records as u64);
        let (Some(at), Some(read)) = (at, read) else {
            return Err(AllocError);
        };
        self.at = at;
        self.records = read;
        Ok(())
    }
}

// The format and the number that stand behind the letters.
fn take_numbers(bytes: &[u8]) -> Option<(u32, u64)>
    ensures found { IfSome result (λ r. bytes.now ≡ big_bytes 4 r.0 ++ big_bytes 8 r.1) }
    ensures fits { IfSome result (λ r. (r.0 < 2 ^ 32) × (r.1 < 2 ^ 64)) }
    ensures none { IfNone result (length bytes.now ≢ 12) }
{
    let (format, rest) = take_u32(bytes)?;
    let (since, rest) = take_u64(rest)?;
    if !rest.is_empty() {
        return None;
    }
    Some((format, since))
}

// The bytes of the frame that comes next, if it may be one of a stream by its length.
fn take_frame<S: Source>(alloc: Global, source: &mut S) -> Result<Option<Vec<u8>>, StreamFail>
    ensures found { (bytes : List ℕ) → S.left source.old ≡ Some bytes → IfOk result (λ read. IfSome read (λ frame.
        Gave bytes (S.left source.new) frame.items)) }
    ensures long { IfOk result (λ read. IfSome read (λ frame. IsFrameLong frame.items)) }
    ensures none { (bytes : List ℕ) (at : ℕ) → S.left source.old ≡ Some bytes → IfOk result (λ read. IfNone read
        (StandsNone stream_grammar 0 at bytes)) }
    ensures spends { IfOk result (λ read. IfSome read (λ _. S.budget source.new < S.budget source.old)) }
    ensures cause { HasCause (S.faults source.old) (S.faults source.new) (result ≡ Err fails.Read) }
    ensures only { IfErr result (λ why. (why ≡ fails.Read) ⊎ (why ≡ fails.NoMemory)) }
{
    let mut head = [0; HEAD_BYTES];
    if fill(source, &mut head)? < HEAD_BYTES {
        return Ok(None);
    }
    let Some(body) = body_length(&head) else {
        return Ok(None);
    };
    let mut frame = vec![in alloc; 0; body + FRAME_BYTES]?;
    if fill_behind(source, &head, &mut frame)? < body + 8 {
        return Ok(None);
    }
    Ok(Some(frame))
}

// Puts a head to the front of a buffer, and fills what is behind it. Says how many bytes that were.
fn fill_behind<S: Source>(
    source: &mut S,
    head: &[u8; HEAD_BYTES],
    frame: &mut [u8],
) -> Result<usize, Failed>
    requires { HEAD_BYTES ≤ length frame.old }
    ensures front { frame.new ≡ head.now ++ drop HEAD_BYTES frame.new }
    ensures length { length frame.new ≡ length frame.old }
    ensures given { IfOk result (λ n. HandsOver (S.left source.old) (S.left source.new) (take n (drop HEAD_BYTES frame.new))) }
    ensures end { IfOk result (λ n. n + HEAD_BYTES < length frame.new → IfSome (S.left source.new) (λ rest. rest ≡ [])) }
    ensures spends { IfOk result (λ n. S.budget source.new + n ≤ S.budget source.old) }
    ensures cause { HasCause (S.faults source.old) (S.faults source.new) (IsErr result) }
{
    frame[..HEAD_BYTES].copy_from_slice(head);
    fill(source, &mut frame[HEAD_BYTES..])
}

// How long the body is behind this head, if it isn't longer than one may be.
fn body_length(head: &[u8]) -> Option<usize>
    ensures found { IfSome result (λ n. length head.now ≡ 5 → SaysLength head.now n) }
    ensures short { IfSome result (λ n. n ≤ max_body) }
    ensures none { IfNone result (length head.now ≡ 5 → (n : ℕ) → SaysLength head.now n → n ≤ max_body → ⊥) }
{
    let (_, rest) = take_u8(head)?;
    let (length, _) = take_u32(rest)?;
    if length as usize > MAX_BODY_BYTES {
        return None;
    }
    Some(length as usize)
}

// What the frame that these bytes are says, if it may stand at this place, behind so many records, of which this is the last
// key.
fn read_piece(
    alloc: Global,
    at: u64,
    last: &[u8],
    records: u64,
    frame: &[u8],
) -> Result<Option<Found>, AllocError>
    ensures none { IfOk result (λ read. IfNone read ((piece : Piece) → StandsAt stream_grammar 0 at frame.now piece []
        → IsNext last.now records piece → ⊥)) }
    ensures batch { (batch : Batch) (key : List ℕ) → result ≡ Ok (Some (found.Batch batch key))
        → StandsAt stream_grammar 0 at frame.now (Records batch.records.items) []
        × IsAbove last.now batch.records.items × (key ≡ last_key last.now batch.records.items) }
    ensures end { result ≡ Ok (Some found.End) → (number : ℕ) × StandsAt stream_grammar 0 at frame.now (End number records) [] }
{
    let Some(found) = read_frame(frame, FileKind::Backup, 0, at) else {
        return Ok(None);
    };
    if found.length != frame.len() as u64 {
        return Ok(None);
    }
    match found.kind {
        FrameKind::Changes => match read_changes(alloc, last, found.body)? {
            None => Ok(None),
            Some((batch, key)) => Ok(Some(Found::Batch(batch, key))),
        },
        FrameKind::BackupEnd => {
            if !counts(found.body, records) {
                return Ok(None);
            }
            Ok(Some(Found::End))
        }
        _ => Ok(None),
    }
}

// Whether the body of the end says that there are so many records.
fn counts(body: &[u8], records: u64) -> bool
    ensures yes { result ≡ true → (number : ℕ) × (number < 2 ^ 64) × (body.now ≡ end_body number records) }
    ensures no { result ≡ false → (number : ℕ) → number < 2 ^ 64 → body.now ≡ end_body number records → ⊥ }
{
    match read_end(body) {
        Some((_, counted)) => counted == records,
        None => false,
    }
}
