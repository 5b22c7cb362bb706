use crate::Inputs;
use crate::files::{Lent, Synced};
use vl_disk::{HeldFile, Writer};

/// What is left of a job that is handed in.
#[derive(Drop)]
pub struct Parts<H: HeldFile, W: Writer> {
    pub inputs: Inputs<H>,
    /// Its tables, in key order.
    pub made: Vec<Synced<W>>,
    /// Its files that didn't become tables.
    pub leavings: Vec<Lent<W>>,
}
