/// Why no store was made.
pub enum StoreFail<E> {
    /// The engine comes back.
    NoMemory(E),
}
