//! Why a sequence wasn't made, and why it gave no number.
use vl_engine_model::FileName;
use vl_model::Counter;

/// Why no sequence was made. The shop comes back as it was.
#[derive(Drop)]
pub enum NewFail<S: Drop> {
    /// The key has no byte.
    EmptyKey(S),
    /// The key has more than [`MAX_KEY_BYTES`](vl_model::MAX_KEY_BYTES) bytes.
    KeyTooLong(S),
    /// There is none for a copy of the key.
    NoMemory(S),
}

/// Why no number was given. The sequence is as it was, and its transaction has ended.
#[derive(Drop)]
pub enum SeqFail {
    /// Another transaction wrote the key while the lease was taken; the last that did is the commit with this number. Ask again.
    Raced { number: u64 },
    /// The key's number and the lease together pass 2^63 - 1. Lease fewer at once, or take another key.
    Spent,
    /// The key's value has so many bytes, and not eight: something else wrote it. Take another key, or mend the value.
    Malformed { len: u64 },
    /// As many transactions and views live as may: 1,024 in a store. Ask again when some have ended.
    TooMany,
    /// The active log has so many bytes, and doesn't take a frame of so many. Ask again behind a rotation.
    Full { length: u64, frame: u64 },
    /// There are no more numbers of commits: the store takes no more.
    Exhausted(Counter),
    /// An earlier step failed at this file, and the store takes no more commits until it is opened again.
    Halted { name: FileName },
    /// The disk failed at this file. At a read ask again; at the commit the store takes no more commits until it is opened again, and the
    /// lease may be found then, whose numbers are given by nobody.
    Disk { name: FileName },
    /// What stands at this place of a file, in bytes, isn't what was written there. It will be so again: restore the store.
    Damaged { name: FileName, place: u64 },
    /// Memory was wanting. Ask again.
    NoMemory,
}
