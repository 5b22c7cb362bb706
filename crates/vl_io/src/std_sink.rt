ghost use Rattle.std.specs.Io.KnownBytes.{Appends};
ghost use Rattle.std.specs.Prelude.{◌≡◌, IsErr, MatchResult, None, OnOk};
ghost use Rattle.vl_disk.specs.Faults.{HasCause, one_more};

use crate::sink::Sink;
use std::io;
use std::io::Write;
use std::marker::Model;
use vl_disk::Failed;

/// A sink over a writer. It does not tell its bytes.
#[derive(Drop)]
pub struct StdSink<W> {
    writer: W,
    faults: u64,
}

impl<W> Model for StdSink<W> {
    ghost use Rattle.vl_io.specs.StdSink.{Writing};

    ghost Value = { Writing W };

    ghost view = { λ s. record { writer = s.writer; faults = s.faults } };
}

impl<W> StdSink<W> {
    /// Writes to this writer.
    pub fn new(writer: W) -> Self
        ensures writer { result.writer ≡ writer }
        ensures faults { result.faults ≡ 0 }
    {
        StdSink { writer, faults: 0 }
    }

    /// The writer.
    pub fn into_inner(self) -> W
        ensures { result ≡ self.writer }
    {
        let StdSink { writer, faults: _ } = self;
        writer
    }
}

impl<W: Write> Sink for StdSink<W> {
    ghost held = { λ _. None };

    ghost faults = { λ s. s.faults };

    /// Writes the whole piece and flushes it; no contract tells of the flush.
    fn put(&mut self, piece: &[u8]) -> Result<(), Failed>
        // What each sink promises.
        ensures cause { HasCause self.old.faults self.new.faults (IsErr result) }

        // What this one does: the piece reaches the writer, where the writer tells its bytes.
        ensures written { OnOk result
            (Appends (W.contents self.old.writer) (W.contents self.new.writer) piece.now) }
        ensures after { MatchResult result
            (λ _. self.new.faults ≡ self.old.faults)
            (λ _. self.new.faults ≡ one_more self.old.faults) }
    {
        if write_through(&mut self.writer, piece).is_err() {
            self.faults = self.faults.saturating_add(1);
            return Err(Failed);
        }
        Ok(())
    }
}

fn write_through<W: Write>(writer: &mut W, piece: &[u8]) -> io::Result<()>
    ensures { OnOk result (Appends (W.contents writer.old) (W.contents writer.new) piece.now) }
{
    writer.write_all(piece)?;
    writer.flush()
}
