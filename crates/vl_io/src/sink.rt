ghost use Rattle.std.specs.Prelude.{List, IsErr, OnErr, OnOk, Option, ℕ};
ghost use Rattle.vl_disk.specs.Faults.{HasCause};
ghost use Rattle.vl_io.specs.Sink.{Takes, TakesPrefix};

use vl_disk::Failed;

/// An output that takes pieces of bytes in order.
pub trait Sink {
    /// The bytes that it took, where they are told; `None` claims nothing.
    ghost held: { Self → Option (List ℕ) };

    /// How many of its calls failed. At 2^64 - 1 it stands still, and counts as risen.
    ghost faults: { Self → ℕ };

    /// Takes the whole piece. After `Failed` it may have taken a front of the piece.
    fn put(&mut self, piece: &[u8]) -> Result<(), Failed>
        ensures taken { OnOk result (Takes (held self.old) (held self.new) piece.now) }
        ensures part { OnErr result (TakesPrefix (held self.old) (held self.new) piece.now) }

        ensures cause { HasCause (faults self.old) (faults self.new) (IsErr result) };
}
