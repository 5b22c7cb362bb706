ghost use Rattle.std.specs.Prelude.{◌≡◌, ◌≤◌, ◌+◌, ◌^◌, [], OnOk, OnErr, vec_len};
ghost use Rattle.std.specs.List.{filter};
ghost use Rattle.std.specs.Option.{option_copied};
ghost use Rattle.std.specs.FinMap.{put};
ghost use Rattle.vl_model.specs.Keys.{key_cmp};
ghost use Rattle.vl_conflict.specs.Notes.{lent, first_in, is_late_within, span_of, is_above_floor, IsShallow};

use crate::tree::{self, Node, Tree};
use std::alloc::{AllocError, Global};
use std::marker::Model;
use std::mem;
use vl_model::Key;

// More nodes are never made, so that a tree of them has a height that can be counted.
const MOST_NODES: u64 = 1 << 62;

/// Keys, each with a number. Clauses see them as a list in rising order.
#[derive(Drop)]
pub struct LastCommitMap {
    root: Tree,
    // Nodes for keys that are to be put in.
    spare: Vec<Box<Node>>,
    // How many nodes were ever made.
    made: u64,
}

impl Model for LastCommitMap {
    ghost use Rattle.std.specs.Prelude.{vec_len};
    ghost use Rattle.vl_conflict.specs.Notes.{Kept};
    ghost use Rattle.vl_conflict.specs.Trees.{named, depth_of, IsKept};

    ghost Value = { Kept };

    ghost view = { λ a. record { named = named a.root; room = vec_len a.spare; depth = depth_of a.root } };

    ghost invariant = { λ a. IsKept a.root (vec_len a.spare) a.made };
}

impl LastCommitMap {
    pub fn new(alloc: Global) -> Self
        ensures named { result.named ≡ [] }
        ensures shallow { IsShallow result }
    {
        LastCommitMap {
            root: Tree::Leaf,
            spare: Vec::new(alloc),
            made: 0,
        }
    }

    /// The least key within bounds whose number is above this one, with its number. A bound that isn't
    /// there is no end. `closed` says that the upper one is itself within.
    pub fn first_newer_than(
        &self,
        number: u64,
        lo: Option<&[u8]>,
        hi: Option<&[u8]>,
        closed: bool,
    ) -> Option<(&Key, u64)>
        ensures { lent result ≡ first_in
            (is_late_within number (span_of (option_copied lo.entry) (option_copied hi.entry) closed))
            self.now.named }
    {
        match tree::first_newer_than(&self.root, number, lo, hi, closed) {
            Some(node) => Some((&node.key, node.number)),
            None => None,
        }
    }

    /// Makes room for so many more keys. An Err leaves all as it was.
    pub fn reserve(&mut self, keys: usize) -> Result<(), AllocError>
        ensures named { self.new.named ≡ self.old.named }
        ensures depth { self.new.depth ≡ self.old.depth }
        ensures room { OnOk result (keys ≤ self.new.room) }
        ensures err { OnErr result (self.new ≡ self.old) }
    {
        let before = self.spare.len();
        if let Err(error) = fill(&mut self.spare, &mut self.made, keys) {
            self.spare.truncate(before);
            return Err(error);
        }
        Ok(())
    }

    /// Gives a key this number, in place of the one that it may have. There is room for it.
    pub fn insert(&mut self, key: Key, number: u64)
        requires { 1 ≤ self.old.room }
        ensures named { self.new.named ≡ put key_cmp key number self.old.named }
        ensures room { self.old.room ≤ self.new.room + 1 }
        ensures shallow { IsShallow self.new }
    {
        let mut node = self.spare.pop().unwrap();
        *node = Node::alone(key, number);
        let root = mem::replace(&mut self.root, Tree::Leaf);
        self.root = Tree::Fork(tree::put(root, node));
    }

    /// Leaves out the keys whose numbers aren't above the floor.
    pub fn retain_above(&mut self, floor: u64)
        ensures named { self.new.named ≡ filter (is_above_floor floor) self.old.named }
        ensures room { self.old.room ≤ self.new.room }
        ensures shallow { IsShallow self.new }
    {
        let root = mem::replace(&mut self.root, Tree::Leaf);
        self.root = tree::pruned(root, floor);
    }
}

// Nodes for so many keys.
fn fill(spare: &mut Vec<Box<Node>>, made: &mut u64, keys: usize) -> Result<(), AllocError>
    requires { made.old ≤ 2 ^ 62 }
    ensures kept { vec_len spare.old ≤ vec_len spare.new }
    ensures room { OnOk result (keys ≤ vec_len spare.new) }
    ensures made { made.new + vec_len spare.old ≡ made.old + vec_len spare.new }
    ensures most { made.new ≤ 2 ^ 62 }
{
    let alloc = *spare.allocator();
    let blank = Key::new(Vec::new(alloc))?;
    for _ in spare.len()..keys {
        if *made >= MOST_NODES {
            return Err(AllocError);
        }
        spare.push(Box::new(alloc, Node::alone(blank.share()?, 0))?)?;
        *made += 1;
    }
    Ok(())
}
