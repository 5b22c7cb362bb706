use crate::Pin;
use std::collections::LinkedList;
use vl_model::{Entry, Key};

/// Where the tables that a job makes are put.
#[derive(Drop)]
pub enum Target {
    /// In key order among the tables of this level.
    Level(u8),
    /// Where the job's one input stands.
    InPlace,
}

/// A merge: its input tables in source order, all entries of the sources that it began with, the
/// newest source first, each with whether an input has it, and the floor of that moment.
#[derive(Drop)]
pub struct Job {
    pub inputs: LinkedList<u32>,
    pub target: Target,
    pub base: LinkedList<(bool, Entry)>,
    pub floor: u64,
    /// How many of the newest versions of a key it keeps.
    pub keep: u8,
}

/// A job that is open; each key that was relocated since it began, the latest first, with the
/// epoch that this made; and the numbers of the tables that were drawn for it, the
/// earliest first.
#[derive(Drop)]
pub struct OpenJob {
    pub job: Job,
    pub pin: Pin,
    pub moved: LinkedList<(Key, u64)>,
    pub lent: LinkedList<u32>,
}

/// A pass that is open over a segment.
#[derive(Drop)]
pub struct OpenPass {
    pub segment: u32,
    pub pin: Pin,
}
