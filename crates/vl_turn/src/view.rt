// What a value under the lock stands for, and what a token knows.
ghost use Rattle.std.specs.Prelude.{ℕ, List, Option, None};

use std::collections::LinkedList;
use std::marker::Brand;

/// A value that stands for a list of entries.
pub trait Standing {
    /// What one turn under the lock entered. No value of it is made.
    type Entry;

    /// The number of the session that made the entry.
    ghost by: { Self.Entry → ℕ };

    /// Of the value with which the lock was made, the value now, and the list.
    ghost stands: { Self → Self → List Self.Entry → Type 0 };
}

/// The entry that a turn enters, or none, for the proof alone. A call at `Brand` picks it.
pub trait Says<E> {
    ghost entry: { Option E };
}

impl<E> Says<E> for Brand {
    ghost entry = { None };
}

/// A session's own entries. No value of it is made.
pub struct Own<E> {
    pub number: u64,
    pub entries: LinkedList<E>,
}

/// What a token knows. No value of it is made.
pub struct View<T, E> {
    /// The value with which the lock was made. A token that was joined to another has none.
    pub start: Option<T>,
    /// A beginning of the list.
    pub seen: LinkedList<E>,
    /// Of what was joined last the shorter part. It begins `seen`, which only a load tells.
    pub lagging: LinkedList<E>,
    /// The own entries of each session that the token has.
    pub owns: LinkedList<Own<E>>,
    /// Whether it has the turn.
    pub holds: bool,
    /// How many sessions were numbered. Only the token with which the lock was made knows it.
    pub made: Option<u64>,
    /// Whether the slot is home with nothing in it, while the token has the turn: the lock wasn't
    /// filled yet, or it was closed.
    pub closed: bool,
}
