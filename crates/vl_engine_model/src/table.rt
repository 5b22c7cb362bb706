use std::collections::LinkedList;
use vl_model::{Entry, Key, Point};

/// A table file: its format, its number, its length in bytes, its entries in order, and what its
/// footer says of them: the segments that they lead into, rising, and the least and the greatest key.
#[derive(Drop)]
pub struct Table {
    pub format: u32,
    pub number: u32,
    pub length: u64,
    pub entries: LinkedList<Entry>,
    pub points: LinkedList<Point>,
    pub first: Key,
    pub last: Key,
}
