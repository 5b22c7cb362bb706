ghost use Rattle.std.specs.Prelude.{◌≡◌, IfOk};

use std::alloc::{AllocError, Global};
use vl_disk::HeldFile;

/// Bytes that were read, and the file of which they are.
#[derive(Drop)]
pub struct Kept<H> {
    pub held: H,
    pub bytes: Vec<u8>,
}

impl<H: HeldFile> Kept<H> {
    /// The same file once more, and a copy of the bytes.
    pub fn of(alloc: Global, held: &H, bytes: &[u8]) -> Result<Self, AllocError>
        ensures held { IfOk result (λ kept. H.is_clone held.now kept.held) }
        ensures bytes { IfOk result (λ kept. kept.bytes.items ≡ bytes.now) }
    {
        let bytes = Vec::from_slice(alloc, bytes)?;
        Ok(Kept {
            held: held.clone()?,
            bytes,
        })
    }
}
