use crate::FileName;
use std::collections::LinkedList;

/// Where something began, and the files that it needs for as long as it lives.
#[derive(Drop)]
pub struct Pin {
    pub epoch: u64,
    pub needs: LinkedList<FileName>,
}

/// A live transaction or view: its ticket, and the number at which it reads.
#[derive(Drop)]
pub struct Live {
    pub ticket: u32,
    pub number: u64,
    pub pin: Pin,
}
