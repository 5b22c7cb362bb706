ghost use Rattle.std.specs.Io.KnownBytes.{Consumes, IsAtEnd, Keeps};
ghost use Rattle.std.specs.Prelude.{◌≡◌, ◌+◌, ◌-◌, ◌<◌, ◌^◌, ◌≤◌, IfOk, IsErr, MatchResult, None, OnErr, length, take};
ghost use Rattle.vl_disk.specs.Faults.{HasCause, one_more};

use crate::source::Source;
use std::io;
use std::io::{ErrorKind, Read};
use std::marker::Model;
use vl_disk::Failed;

/// The most bytes that a source over a reader gives in its life.
const MAX_BYTES: u64 = (1 << 63) - 1;

/// How often a read that is interrupted is begun again.
const TRIES: u64 = 1 << 32;

/// A source over a reader. It does not tell its bytes. A read that was interrupted is begun again.
#[derive(Drop)]
pub struct StdSource<R> {
    reader: R,
    budget: u64,
    faults: u64,
}

impl<R> Model for StdSource<R> {
    ghost use Rattle.vl_io.specs.StdSource.{Reading};

    ghost Value = { Reading R };

    ghost view = { λ s. record { reader = s.reader; budget = s.budget; faults = s.faults } };
}

impl<R> StdSource<R> {
    /// Gives what the reader gives, up to 2^63 - 1 bytes, behind which the source is at its end.
    pub fn new(reader: R) -> Self
        ensures reader { result.reader ≡ reader }
        ensures budget { result.budget ≡ 2 ^ 63 - 1 }
        ensures faults { result.faults ≡ 0 }
    {
        StdSource {
            reader,
            budget: MAX_BYTES,
            faults: 0,
        }
    }
}

impl<R: Read> Source for StdSource<R> {
    ghost use Rattle.vl_io.specs.StdSource.{untold};

    ghost left = { λ _. None };

    ghost asked = { λ _. None };

    ghost budget = { λ s. s.budget };

    ghost faults = { λ s. s.faults };

    ghost since_asked = { λ _. untold };

    fn next(&mut self, out: &mut [u8]) -> Result<usize, Failed>
        requires room { 0 < length out.old }

        // What each source promises.
        ensures within { IfOk result (λ n. n ≤ length out.old) }
        ensures spends { MatchResult result
            (λ n. self.new.budget + n ≤ self.old.budget)
            (λ _. self.new.budget ≤ self.old.budget) }
        ensures cause { HasCause self.old.faults self.new.faults (IsErr result) }

        // What this one does: it gives the bytes that the reader gives, where the reader tells them.
        ensures passes_on { IfOk result (λ n.
            Consumes (R.remaining self.old.reader) (R.remaining self.new.reader) (take n out.new)) }
        ensures at_end { IfOk result (λ n. n ≡ 0 → 0 < self.old.budget →
            IsAtEnd (R.remaining self.new.reader)) }
        ensures loses_none { OnErr result
            (Keeps (R.remaining self.old.reader) (R.remaining self.new.reader)) }
        ensures used_up { self.old.budget ≡ 0 → result ≡ Ok 0 }
        ensures after { MatchResult result
            (λ n. (self.new.budget + n ≡ self.old.budget) × (self.new.faults ≡ self.old.faults))
            (λ _. (self.new.budget ≡ self.old.budget) × (self.new.faults ≡ one_more self.old.faults)) }
    {
        let most = self.budget.min(out.len() as u64) as usize;
        if most == 0 {
            return Ok(0);
        }
        match read_on(&mut self.reader, &mut out[..most]) {
            Ok(count) => {
                self.budget -= count as u64;
                Ok(count)
            }
            Err(_) => {
                self.faults = self.faults.saturating_add(1);
                Err(Failed)
            }
        }
    }
}

/// Reads once, and again where that was interrupted.
fn read_on<R: Read>(reader: &mut R, out: &mut [u8]) -> io::Result<usize>
    requires { 0 < length out.old }
    ensures within { IfOk result (λ n. n ≤ length out.old) }
    ensures passes_on { IfOk result (λ n.
        Consumes (R.remaining reader.old) (R.remaining reader.new) (take n out.new)) }
    ensures at_end { IfOk result (λ n. n ≡ 0 → IsAtEnd (R.remaining reader.new)) }
    ensures loses_none { OnErr result (Keeps (R.remaining reader.old) (R.remaining reader.new)) }
{
    for _ in 0..TRIES {
        match reader.read(out) {
            Err(error) if error.kind() == ErrorKind::Interrupted => {}
            answer => return answer,
        }
    }
    Err(io::Error::from(ErrorKind::Interrupted))
}
