ghost use Rattle.std.specs.Prelude.{◌≡◌, ◌↔◌, ◌<◌, ◌^◌, IfNone, IfSome, IsTrue, List, length, ℕ};
ghost use Rattle.vl_frame.specs.Frame.{check_of};
ghost use Rattle.vl_frame.specs.FrameFields.{IsApart};
ghost use Rattle.vl_frame.specs.declared.kinds.FrameKind.{FrameKind};

use crate::checks::check;
use crate::kinds::FrameKind;
use crate::numbers::{take_bytes, take_u8, take_u32};

/// A frame taken apart, whatever its check is.
#[derive(Clone, Copy)]
pub struct FrameFields<'a> {
    pub kind: FrameKind,
    pub body: &'a [u8],
    pub check: &'a [u8],
}

impl FrameFields<'_> {
    /// Whether the check is that of a frame which stands at this place of the file with this number.
    pub fn is_checked(&self, number: u32, at: u64) -> bool
        requires { length self.now.body.now < 2 ^ 32 }
        ensures { IsTrue result ↔
            (self.now.check.now ≡ check_of number at self.now.kind self.now.body.now) }
    {
        self.check == check(number, at, self.kind, self.body).as_slice()
    }
}

/// The parts of the frame at the front of the bytes, if they hold a kind, a length, and as much as it says.
pub fn take_apart(bytes: &[u8]) -> Option<FrameFields<'_>>
    ensures found { IfSome result (λ p. IsApart bytes.now p.kind p.body.now p.check.now) }
    ensures none { IfNone result
        ((kind : FrameKind) (body check : List ℕ) → IsApart bytes.now kind body check → ⊥) }
{
    let (code, rest) = take_u8(bytes)?;
    let kind = FrameKind::of_code(code)?;
    let (length, rest) = take_u32(rest)?;
    let (body, rest) = take_bytes(rest, length as usize)?;
    let (check, _) = take_bytes(rest, 8)?;
    Some(FrameFields { kind, body, check })
}
