use thiserror::Error;

/// The lock wasn't made.
#[derive(Debug, Drop, Error)]
pub enum LockFail<T> {
    /// There is no memory for it. The value comes back.
    #[error("no memory")]
    NoMemory(T),
}
