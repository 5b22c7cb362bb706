//! Tests of files over a disk in memory: of logs, one of each format, whose bytes were computed apart from `vl_seglog`; and of tables
//! that are written, opened, searched and gone through, and the merges that are planned of them.
#![tactic(auto)]

#[cfg(test)]
mod cursors;
#[cfg(test)]
mod disk;
#[cfg(test)]
mod disorder;
#[cfg(test)]
mod levels;
#[cfg(test)]
mod merging;
#[cfg(test)]
mod planning;
#[cfg(test)]
mod sealed;
#[cfg(test)]
mod sharing;
mod source;
#[cfg(test)]
mod tables;
#[cfg(test)]
mod version;
#[cfg(test)]
mod warm;

pub use source::Source;
