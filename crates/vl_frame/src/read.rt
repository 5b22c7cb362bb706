ghost use Rattle.std.specs.Prelude.{◌≡◌, ◌++◌, ◌≤◌, IfNone, IfSome, List, drop, length, ℕ};
ghost use Rattle.vl_frame.specs.Frame.{IsSpelled, frame_bytes, frame_length};
ghost use Rattle.vl_frame.specs.declared.kinds.FrameKind.{FrameKind};

use crate::fields::take_apart;
use crate::frame::Frame;
use crate::kinds::FileKind;
use crate::limits::FRAME_BYTES;

/// The frame that stands at the front of the bytes, which are those of a file from the place `at` on.
pub fn read_frame(bytes: &[u8], file: FileKind, number: u32, at: u64) -> Option<Frame<'_>>
    ensures found { IfSome result (λ f. IsSpelled file number at bytes.now f.kind f.body.now
        × (f.length ≡ frame_length (length f.body.now))) }
    ensures within { IfSome result (λ f. f.length ≤ length bytes.now) }
    ensures rest { IfSome result (λ f.
        bytes.now ≡ frame_bytes number at f.kind f.body.now ++ drop f.length bytes.now) }

    // None is found only where none stands.
    ensures none { IfNone result
        ((kind : FrameKind) (body : List ℕ) → IsSpelled file number at bytes.now kind body → ⊥) }
{
    let parts = take_apart(bytes)?;
    if !parts.kind.is_in(file) || !parts.is_checked(number, at) {
        return None;
    }
    Some(Frame {
        kind: parts.kind,
        body: parts.body,
        length: (parts.body.len() + FRAME_BYTES) as u64,
    })
}
