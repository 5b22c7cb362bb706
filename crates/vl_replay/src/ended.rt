//! What a run puts last.
ghost use Rattle.vl_script_model.specs.Endings.{ending_at, line_at};
ghost use Rattle.vl_script_model.specs.Steps.{Finishes};

use vl_io::Sink;
use vl_script_model::{Ending, OnFault};

/// How a run ended, and the disk.
pub struct Ended<D> {
    pub ending: Ending,
    pub disk: D,
}

/// The last line of a run whose words aren't plain.
pub const USAGE: &[u8] =
    b"usage: vlstore replay DIR, trial STOP OUTCOME, bench SEED COUNT, drive CLIENTS TXNS SEED or ids CLIENTS COUNT LEASE\n";

pub const DISK_FAULT: &[u8] = b"disk fault\n";

pub const NO_MEMORY: &[u8] = b"no memory\n";

pub const READ_FAULT: &[u8] = b"read fault\n";

/// Puts a run's last line. Where it can't be put, the run ends by the sink's fault.
pub fn finish<K: Sink>(sink: &mut K, line: &[u8], ending: Ending) -> Ending
    ensures { Finishes K.Sink sink.old sink.new line.now ending result }
{
    match sink.put(line) {
        Ok(()) => ending,
        Err(_) => Ending::WriteFault,
    }
}

/// Ends a run whose disk failed.
pub fn end_at_fault<K: Sink>(sink: &mut K, on_fault: OnFault) -> Ending
    ensures { Finishes K.Sink sink.old sink.new (line_at on_fault) (ending_at on_fault) result }
{
    match on_fault {
        OnFault::Report => finish(sink, DISK_FAULT, Ending::DiskFault),
        OnFault::Stop => Ending::Stopped,
    }
}
