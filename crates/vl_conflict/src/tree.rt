ghost use Rattle.std.specs.Prelude.{◌≡◌, ◌≤◌, ◌<◌, ◌+◌, ◌-◌, ◌++◌, ◌∷◌, ◌↔◌, max, min, true, IsTrue};
ghost use Rattle.std.specs.FinMap as map;
ghost use Rattle.vl_model.specs.Keys.{key_cmp};
ghost use Rattle.std.specs.Option.{option_copied};
ghost use Rattle.std.specs.List.{filter};
ghost use Rattle.vl_model.specs.Reads.{is_from, is_up_to};
ghost use Rattle.vl_conflict.specs.Notes.{first_in, is_late_within, is_above_floor, span_of};
ghost use Rattle.vl_conflict.specs.Trees.{named, least_of, greatest_of, height_of, highest, IsWhole, AreLevel};
ghost use Rattle.vl_conflict.specs.Trees.{AreNearlyLevel, AreLow, IsGrown, node_named, NodeWhole, IsAlone, found};

use std::cmp::Ordering;
use std::mem;
use vl_model::{Key, key_order};

// Keys, each with its number, as a search tree.
#[cycle(tree)]
#[derive(Drop)]
pub enum Tree {
    Leaf,
    Fork(Box<Node>),
}

#[cycle(tree)]
#[derive(Drop)]
pub struct Node {
    // The lesser keys.
    pub left: Tree,
    pub key: Key,
    pub number: u64,
    // The least and the greatest number in this node and below it.
    pub least: u64,
    pub greatest: u64,
    // How many nodes stand above one another here.
    pub height: u8,
    // The greater keys.
    pub right: Tree,
}

impl Node {
    // A node with nothing below it.
    pub fn alone(key: Key, number: u64) -> Self
        ensures alone { IsAlone result }
        ensures key { result.key ≡ key }
        ensures number { result.number ≡ number }
    {
        Node {
            left: Tree::Leaf,
            key,
            number,
            least: number,
            greatest: number,
            height: 1,
            right: Tree::Leaf,
        }
    }
}

fn least(tree: &Tree) -> u64
    ensures { result ≡ least_of tree.now }
{
    match tree {
        Tree::Leaf => u64::MAX,
        Tree::Fork(node) => node.least,
    }
}

fn greatest(tree: &Tree) -> u64
    ensures { result ≡ greatest_of tree.now }
{
    match tree {
        Tree::Leaf => 0,
        Tree::Fork(node) => node.greatest,
    }
}

fn height(tree: &Tree) -> u8
    ensures { result ≡ height_of tree.now }
{
    match tree {
        Tree::Leaf => 0,
        Tree::Fork(node) => node.height,
    }
}

// Whether a tree is more than one level higher than another.
fn is_far_higher(tree: &Tree, other: &Tree) -> bool
    ensures { IsTrue result ↔ (height_of other.now + 1 < height_of tree.now) }
{
    height(tree) > height(other).saturating_add(1)
}

// ---- balance

// The node above these halves.
fn above(left: Tree, mut node: Box<Node>, right: Tree) -> Box<Node>
    requires left { IsWhole left }
    requires right { IsWhole right }
    requires level { AreLevel left right }
    requires low { AreLow left right }
    ensures named { node_named result.value
        ≡ named left ++ (node.value.key, node.value.number) ∷ named right }
    ensures whole { NodeWhole result.value }
    ensures height { result.value.height ≡ 1 + highest left right }
{
    node.least = node.number.min(least(&left).min(least(&right)));
    node.greatest = node.number.max(greatest(&left).max(greatest(&right)));
    node.height = height(&left).max(height(&right)) + 1;
    node.left = left;
    node.right = right;
    node
}

// The node above these halves, which are turned so that their heights differ by one at most.
fn balanced(left: Tree, node: Box<Node>, right: Tree) -> Box<Node>
    requires left { IsWhole left }
    requires right { IsWhole right }
    requires nearly { AreNearlyLevel left right }
    requires low { AreLow left right }
    ensures named { node_named result.value
        ≡ named left ++ (node.value.key, node.value.number) ∷ named right }
    ensures whole { NodeWhole result.value }
    ensures height { IsGrown (highest left right) result.value.height }
    ensures level { AreLevel left right → result.value.height ≡ 1 + highest left right }
{
    if is_far_higher(&left, &right) {
        return match left {
            Tree::Leaf => unreachable!(),
            Tree::Fork(top) => turned_right(top, node, right),
        };
    }
    if is_far_higher(&right, &left) {
        return match right {
            Tree::Leaf => unreachable!(),
            Tree::Fork(top) => turned_left(left, node, top),
        };
    }
    above(left, node, right)
}

// The root of the left half, which is two levels higher, above the node; or that of its right half, where
// this is the higher one.
fn turned_right(mut top: Box<Node>, node: Box<Node>, right: Tree) -> Box<Node>
    requires top { NodeWhole top.value }
    requires right { IsWhole right }
    requires higher { top.value.height ≡ height_of right + 2 }
    requires low { top.value.height ≤ 254 }
    ensures named { node_named result.value
        ≡ node_named top.value ++ (node.value.key, node.value.number) ∷ named right }
    ensures whole { NodeWhole result.value }
    ensures height { IsGrown top.value.height result.value.height }
{
    let outer = mem::replace(&mut top.left, Tree::Leaf);
    let inner = mem::replace(&mut top.right, Tree::Leaf);
    if height(&inner) <= height(&outer) {
        let below = above(inner, node, right);
        return above(outer, top, Tree::Fork(below));
    }
    match inner {
        Tree::Leaf => unreachable!(),
        Tree::Fork(middle) => turned_twice(outer, top, middle, node, right),
    }
}

// The same of a right half.
fn turned_left(left: Tree, node: Box<Node>, mut top: Box<Node>) -> Box<Node>
    requires left { IsWhole left }
    requires top { NodeWhole top.value }
    requires higher { top.value.height ≡ height_of left + 2 }
    requires low { top.value.height ≤ 254 }
    ensures named { node_named result.value
        ≡ named left ++ (node.value.key, node.value.number) ∷ node_named top.value }
    ensures whole { NodeWhole result.value }
    ensures height { IsGrown top.value.height result.value.height }
{
    let inner = mem::replace(&mut top.left, Tree::Leaf);
    let outer = mem::replace(&mut top.right, Tree::Leaf);
    if height(&inner) <= height(&outer) {
        let below = above(left, node, inner);
        return above(Tree::Fork(below), top, outer);
    }
    match inner {
        Tree::Leaf => unreachable!(),
        Tree::Fork(middle) => turned_twice(left, node, middle, top, outer),
    }
}

// The middle node above two others, which take its halves.
fn turned_twice(
    left: Tree,
    lesser: Box<Node>,
    mut middle: Box<Node>,
    greater: Box<Node>,
    right: Tree,
) -> Box<Node>
    requires left { IsWhole left }
    requires middle { NodeWhole middle.value }
    requires right { IsWhole right }
    requires higher { (middle.value.height ≡ height_of left + 1) × (middle.value.height ≡ height_of right + 1) }
    requires low { middle.value.height ≤ 253 }
    ensures named { node_named result.value
        ≡ named left ++ (lesser.value.key, lesser.value.number)
        ∷ (node_named middle.value ++ (greater.value.key, greater.value.number) ∷ named right) }
    ensures whole { NodeWhole result.value }
    ensures height { result.value.height ≡ middle.value.height + 1 }
{
    let inner_left = mem::replace(&mut middle.left, Tree::Leaf);
    let inner_right = mem::replace(&mut middle.right, Tree::Leaf);
    let lesser = above(left, lesser, inner_left);
    let greater = above(inner_right, greater, right);
    above(Tree::Fork(lesser), middle, Tree::Fork(greater))
}

// ---- one key more

// The root, after a node was put in, below which nothing stands. Where its key is noted already, that gets
// the number, and the node goes.
#[cycle(put)]
pub fn put(tree: Tree, node: Box<Node>) -> Box<Node>
    requires sorted { map.is_sorted key_cmp (named tree) ≡ true }
    requires whole { IsWhole tree }
    requires alone { IsAlone node.value }
    requires low { height_of tree ≤ 254 }
    ensures named { node_named result.value
        ≡ map.put key_cmp node.value.key node.value.number (named tree) }
    ensures whole { NodeWhole result.value }
    ensures height { IsGrown (height_of tree) result.value.height }
{
    match tree {
        Tree::Leaf => node,
        Tree::Fork(top) => put_below(top, node),
    }
}

#[cycle(put)]
fn put_below(mut top: Box<Node>, node: Box<Node>) -> Box<Node>
    requires sorted { map.is_sorted key_cmp (node_named top.value) ≡ true }
    requires whole { NodeWhole top.value }
    requires alone { IsAlone node.value }
    requires low { top.value.height ≤ 254 }
    ensures named { node_named result.value
        ≡ map.put key_cmp node.value.key node.value.number (node_named top.value) }
    ensures whole { NodeWhole result.value }
    ensures height { IsGrown top.value.height result.value.height }
{
    let order = order(&node, &top);
    let left = mem::replace(&mut top.left, Tree::Leaf);
    let right = mem::replace(&mut top.right, Tree::Leaf);
    match order {
        Ordering::Less => {
            let left = Tree::Fork(put(left, node));
            balanced(left, top, right)
        }
        Ordering::Equal => {
            top.number = node.number;
            above(left, top, right)
        }
        Ordering::Greater => {
            let right = Tree::Fork(put(right, node));
            balanced(left, top, right)
        }
    }
}

fn order(a: &Node, b: &Node) -> Ordering
    ensures { result ≡ key_cmp a.now.key b.now.key }
{
    key_order(a.key.as_slice(), b.key.as_slice())
}

// ---- searches

// The first late one within bounds, of which those that aren't there are no end.
#[cycle(first_newer_than)]
pub fn first_newer_than<'a>(
    tree: &'a Tree,
    number: u64,
    lo: Option<&[u8]>,
    hi: Option<&[u8]>,
    closed: bool,
) -> Option<&'a Node>
    requires sorted { map.is_sorted key_cmp (named tree.now) ≡ true }
    requires whole { IsWhole tree.now }
    ensures { found result ≡ first_in
        (is_late_within number (span_of (option_copied lo.entry) (option_copied hi.entry) closed))
        (named tree.now) }
{
    match tree {
        Tree::Leaf => None,
        Tree::Fork(node) => first_newer_than_below(node, number, lo, hi, closed),
    }
}

#[cycle(first_newer_than)]
fn first_newer_than_below<'a>(
    node: &'a Node,
    number: u64,
    lo: Option<&[u8]>,
    hi: Option<&[u8]>,
    closed: bool,
) -> Option<&'a Node>
    requires sorted { map.is_sorted key_cmp (node_named node.now) ≡ true }
    requires whole { NodeWhole node.now }
    ensures { found result ≡ first_in
        (is_late_within number (span_of (option_copied lo.entry) (option_copied hi.entry) closed))
        (node_named node.now) }
{
    if node.greatest <= number {
        return None;
    }
    if !is_from(lo, node.key.as_slice()) {
        return first_newer_than(&node.right, number, lo, hi, closed);
    }
    if !is_up_to(hi, closed, node.key.as_slice()) {
        return first_newer_than(&node.left, number, lo, hi, closed);
    }
    let lesser = first_newer_than(&node.left, number, lo, hi, closed);
    if lesser.is_some() {
        return lesser;
    }
    if node.number > number {
        return Some(node);
    }
    first_newer_than(&node.right, number, lo, hi, closed)
}

fn is_from(lo: Option<&[u8]>, key: &[u8]) -> bool
    ensures { result ≡ is_from (option_copied lo.entry) key.now }
{
    match lo {
        Some(low) => !key_order(key, low).is_lt(),
        None => true,
    }
}

fn is_up_to(hi: Option<&[u8]>, closed: bool, key: &[u8]) -> bool
    ensures { result ≡ is_up_to (option_copied hi.entry) closed key.now }
{
    match hi {
        Some(high) if closed => !key_order(high, key).is_lt(),
        Some(high) => key_order(key, high).is_lt(),
        None => true,
    }
}

// ---- fewer keys

// The tree without those whose numbers aren't above the floor.
#[cycle(prune)]
pub fn pruned(tree: Tree, floor: u64) -> Tree
    requires whole { IsWhole tree }
    requires low { height_of tree ≤ 255 }
    ensures named { named result ≡ filter (is_above_floor floor) (named tree) }
    ensures whole { IsWhole result }
    ensures height { height_of result ≤ height_of tree }
{
    match tree {
        Tree::Leaf => Tree::Leaf,
        Tree::Fork(node) => pruned_below(node, floor),
    }
}

// What goes all together, or stays so, isn't looked through.
#[cycle(prune)]
fn pruned_below(mut node: Box<Node>, floor: u64) -> Tree
    requires whole { NodeWhole node.value }
    requires low { node.value.height ≤ 255 }
    ensures named { named result ≡ filter (is_above_floor floor) (node_named node.value) }
    ensures whole { IsWhole result }
    ensures height { height_of result ≤ node.value.height }
{
    if node.least > floor {
        return Tree::Fork(node);
    }
    if node.greatest <= floor {
        return Tree::Leaf;
    }
    let left = pruned(mem::replace(&mut node.left, Tree::Leaf), floor);
    let right = pruned(mem::replace(&mut node.right, Tree::Leaf), floor);
    if node.number > floor {
        Tree::Fork(joined(left, node, right))
    } else {
        merged(left, right)
    }
}

// What two trees have, the lesser keys first.
fn merged(left: Tree, right: Tree) -> Tree
    requires left { IsWhole left }
    requires right { IsWhole right }
    requires low { AreLow left right }
    ensures named { named result ≡ named left ++ named right }
    ensures whole { IsWhole result }
    ensures height { height_of result ≤ highest left right + 1 }
{
    match right {
        Tree::Leaf => left,
        Tree::Fork(node) => {
            let (first, rest) = first_taken(node);
            Tree::Fork(joined(left, first, rest))
        }
    }
}

// The node of the least key, and the others.
fn first_taken(mut node: Box<Node>) -> (Box<Node>, Tree)
    requires whole { NodeWhole node.value }
    requires low { node.value.height ≤ 255 }
    ensures named { node_named node.value ≡ (result.0.value.key, result.0.value.number) ∷ named result.1 }
    ensures whole { IsWhole result.1 }
    ensures height { IsGrown (height_of result.1) node.value.height }
{
    let left = mem::replace(&mut node.left, Tree::Leaf);
    let right = mem::replace(&mut node.right, Tree::Leaf);
    match left {
        Tree::Leaf => (node, right),
        Tree::Fork(left) => {
            let (first, rest) = first_taken(left);
            (first, Tree::Fork(balanced(rest, node, right)))
        }
    }
}

// A node with these halves, which may differ in height as they like.
fn joined(left: Tree, node: Box<Node>, right: Tree) -> Box<Node>
    requires left { IsWhole left }
    requires right { IsWhole right }
    requires low { AreLow left right }
    ensures named { node_named result.value
        ≡ named left ++ (node.value.key, node.value.number) ∷ named right }
    ensures whole { NodeWhole result.value }
    ensures height { IsGrown (highest left right) result.value.height }
{
    let left_high = is_far_higher(&left, &right);
    let right_high = is_far_higher(&right, &left);
    match (left, right) {
        (Tree::Fork(mut top), right) if left_high => {
            let outer = mem::replace(&mut top.left, Tree::Leaf);
            let inner = mem::replace(&mut top.right, Tree::Leaf);
            let below = Tree::Fork(joined(inner, node, right));
            balanced(outer, top, below)
        }
        (left, Tree::Fork(mut top)) if right_high => {
            let inner = mem::replace(&mut top.left, Tree::Leaf);
            let outer = mem::replace(&mut top.right, Tree::Leaf);
            let below = Tree::Fork(joined(left, node, inner));
            balanced(below, top, outer)
        }
        (left, right) => above(left, node, right),
    }
}
