use vl_model::Counter;

/// What a step on files comes to, before anything is written. Of several of these the first.
#[derive(Drop)]
pub enum Decision {
    /// There is nothing to do.
    Idle,
    /// There is no number left of this kind.
    Exhausted(Counter),
    /// It is to be done.
    Go,
}
