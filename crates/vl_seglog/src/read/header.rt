ghost use Rattle.vl_seglog.specs.LogReading.{SaysFormat};

use vl_frame::{FileKind, read_header};
use vl_model::LOG_FORMAT;

/// The format in the header that the bytes of the log with this number begin with. None where they begin with no right
/// one.
pub fn header_format(bytes: &[u8], number: u32) -> Option<u32>
    ensures { SaysFormat result number bytes.now }
{
    read_header(bytes, FileKind::Log, number, LOG_FORMAT)
}
