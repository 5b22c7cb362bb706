use vl_disk::Name;

/// What is read: so many bytes of a file from a place on.
#[derive(Clone, Copy, Debug, PartialEq, Eq)]
#[derive_where(Hash)]
pub struct Block {
    #[derive_where(skip(Hash))]
    pub name: Name,
    pub place: u64,
    pub len: u64,
}
