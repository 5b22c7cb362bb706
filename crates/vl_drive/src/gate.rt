/// Where a client is in its turn.
#[derive(Clone, Copy)]
pub enum Point {
    /// It has read, and is about to commit.
    BeforeCommit,
    /// Its commit was answered.
    AfterCommit,
}

/// What is called in each turn of a client, by its thread. A test may hold clients up here.
pub trait Gate {
    /// Clients count from 0, and turns from 1.
    fn at(&self, client: u32, turn: u32, point: Point);
}

/// A gate that does nothing.
#[derive(Clone, Copy)]
pub struct NoGate;

impl Gate for NoGate {
    fn at(&self, _client: u32, _turn: u32, _point: Point) {}
}
