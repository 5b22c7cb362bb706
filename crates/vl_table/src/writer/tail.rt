ghost use Rattle.std.specs.Prelude.{◌≡◌, ◌++◌, OnOk};
ghost use Rattle.vl_table.specs.writer.Tails.{tail_bytes};

use crate::body::TableShape;
use std::alloc::AllocError;

/// The rest of a table, piece by piece, and what is known of the table beside its blocks.
#[derive(Drop)]
pub struct Tail {
    /// The frames of the last block, the index, the filter and the footer.
    pub block: Vec<u8>,
    pub index: Vec<u8>,
    pub filter: Vec<u8>,
    pub footer: Vec<u8>,
    /// The footer's place.
    pub place: [u8; 8],
    pub shape: TableShape,
}

impl Tail {
    /// Appends the pieces, one behind the other.
    pub fn append_to(&self, out: &mut Vec<u8>) -> Result<(), AllocError>
        ensures { OnOk result (out.new.items ≡ out.old.items ++ tail_bytes self.now) }
    {
        out.extend_from_slice(&self.block)?;
        out.extend_from_slice(&self.index)?;
        out.extend_from_slice(&self.filter)?;
        out.extend_from_slice(&self.footer)?;
        out.extend_from_slice(&self.place)
    }
}
