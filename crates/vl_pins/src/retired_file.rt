use vl_disk::Name;

/// A file that no later version needs, and the epoch that its retirement made. One that was lent to a merge which ended
/// without it has what was lent yet: no version ever needed it, and it is retired at 0.
#[derive(Drop)]
pub struct RetiredFile<L> {
    pub name: Name,
    pub epoch: u64,
    pub lent: Option<L>,
}
