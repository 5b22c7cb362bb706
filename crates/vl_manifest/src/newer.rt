ghost use Rattle.std.specs.Prelude.{ℕ, IfNone, IfSome};
ghost use Rattle.vl_manifest.specs.Manifest.{IsNewer};

use crate::frames::behind_header;
use vl_frame::{FileKind, HEADER_BYTES, read_format, read_frame};
use vl_model::MANIFEST_FORMAT;

/// The format of the manifest with this number, where it is one that isn't read yet: a file with a manifest's letters,
/// a greater format and a whole first frame, whatever this says.
pub fn newer_format(bytes: &[u8], number: u32) -> Option<u32>
    ensures found { IfSome result (IsNewer number bytes.now) }
    ensures none { IfNone result ((format : ℕ) → IsNewer number bytes.now format → ⊥) }
{
    let format = read_format(bytes, FileKind::Manifest)?;
    if format <= MANIFEST_FORMAT {
        return None;
    }
    let frames = behind_header(bytes);
    read_frame(frames, FileKind::Manifest, number, HEADER_BYTES as u64)?;
    Some(format)
}
