ghost use Rattle.std.specs.Prelude.{◌≡◌, ◌+◌, ◌≤◌, [], length, IfOk, IsErr, OnErr};
ghost use Rattle.vl_disk.specs.Faults.{HasCause};
ghost use Rattle.vl_script_model.specs.Input.{TakesLineEnd, Refills};

use std::alloc::{AllocError, Global};
use std::marker::Model;
use vl_disk::Failed;
use vl_io::Source;
use vl_script::find_byte;

/// The most that a source is asked for at a time.
const BUFFER_BYTES: usize = 65536;

/// Bytes that a source gave and no line has taken yet. Clauses see the list of them.
#[derive(Drop)]
pub struct Buffer {
    bytes: Vec<u8>,
    start: usize,
    end: usize,
}

impl Model for Buffer {
    ghost use Rattle.std.specs.Prelude.{ℕ, ◌-◌, ◌<◌, ◌≤◌, List, take, drop, vec_len};

    ghost Value = { List ℕ };

    ghost view = { λ b. take (b.end - b.start) (drop b.start b.bytes.items) };

    ghost invariant = { λ b. (b.start ≤ b.end) × (b.end ≤ vec_len b.bytes) × (0 < vec_len b.bytes) };
}

impl Buffer {
    pub fn new(alloc: Global) -> Result<Self, AllocError>
        ensures { IfOk result (λ buffer. buffer ≡ []) }
    {
        Ok(Buffer {
            bytes: vec![in alloc; 0; BUFFER_BYTES]?,
            start: 0,
            end: 0,
        })
    }

    /// Moves the bytes up to the next line's end to a line, and that end away. Where there is no line's end it
    /// moves all bytes and answers false.
    pub fn take_line(&mut self, line: &mut Vec<u8>) -> Result<bool, AllocError>
        ensures { IfOk result (λ ended. TakesLineEnd ended self.old self.new line.old.items line.new.items) }
    {
        let pending = &self.bytes[self.start..self.end];
        match find_byte(b'\n', pending) {
            Some(length) => {
                line.extend_from_slice(&pending[..length])?;
                self.start += length + 1;
                Ok(true)
            }
            None => {
                line.extend_from_slice(pending)?;
                self.start = self.end;
                Ok(false)
            }
        }
    }

    /// Asks the source for more bytes, in the place of those that are there. False says that it is at its end.
    pub fn refill<S: Source>(&mut self, source: &mut S) -> Result<bool, Failed>
        ensures bytes { IfOk result (λ more. Refills more (S.left source.old) (S.left source.new) self.new) }
        ensures kept { OnErr result (S.left source.new ≡ S.left source.old) }
        ensures asked { S.asked source.new ≡ S.left source.old }
        ensures budget { IfOk result (λ more. length self.new + S.budget source.new ≤ S.budget source.old) }
        ensures cause { HasCause (S.faults source.old) (S.faults source.new) (IsErr result) }
    {
        let given = source.next(&mut self.bytes)?;
        self.start = 0;
        self.end = given;
        Ok(given > 0)
    }
}
