/// What a job reads with: a reader of its inputs' files, and what its sources are asked with. Each counts its own faults.
#[derive(Drop)]
pub struct JobReader<R, L> {
    pub files: R,
    pub looks: L,
}
