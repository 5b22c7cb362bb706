use vl_disk::{HeldFile, Name};
use vl_manifest::{ManifestState, Waiting};
use vl_memtable::FrozenLog;
use vl_model::Entry;
use vl_seglog::SealedLog;
use vl_table::Table;

/// The greatest number of each kind of file that stands, 0 where none does.
#[derive(Clone, Copy, Debug, Drop)]
pub(crate) struct GreatestNumbers {
    pub log: u32,
    pub table: u32,
    pub manifest: u32,
}

/// The last log, as it stands.
#[derive(Clone, Copy, Debug, Drop)]
pub(crate) struct LastLog {
    pub number: u32,
    /// Of its file, in bytes.
    pub length: u64,
    /// The one in its header, or the one that is written where that isn't right.
    pub format: u32,
    /// Whether it keeps its header: this is right, and in the format that is written, or has frames behind it.
    pub header: bool,
    /// Where its content ends, in bytes: 0 without a right header.
    pub end: u64,
    pub has_frames: bool,
}

/// What an opening found out by reading.
#[derive(Drop)]
pub(crate) struct Findings {
    /// What the current manifest says.
    pub state: ManifestState,
    /// Of the last commit.
    pub number: u64,
    /// The logs with frames from head on, their numbers rising.
    pub frozen: Vec<FrozenLog>,
    /// The same as they wait for their flush.
    pub waiting: Vec<Waiting>,
    pub greatest: GreatestNumbers,
    /// Of the logs from head on the last.
    pub last: Option<LastLog>,
    /// The files that aren't needed behind the opening: manifests, tables that aren't named, and logs below head that no
    /// table leads into.
    pub strays: Vec<Name>,
}

/// What stands behind a log's header.
#[derive(Drop)]
pub(crate) struct Content {
    /// Where it ends, in bytes: 0 without a right header.
    pub end: u64,
    /// The number of the last commit, by the one before the log; or the place of the first frame that has another
    /// number than the next.
    pub count: Result<u64, u64>,
    pub has_frames: bool,
    /// Those of all records, the first one's first, but of each frame the last one's first.
    pub entries: Vec<Entry>,
}

/// A log that was read.
#[derive(Drop)]
pub(crate) struct LogFound {
    pub number: u32,
    /// Of its file, in bytes.
    pub length: u64,
    /// The one in its header. None where that isn't right.
    pub format: Option<u32>,
    pub content: Content,
}

/// Where a log is damaged: its number, and the place in bytes.
#[derive(Clone, Copy, Debug, Drop)]
pub(crate) struct DamagePlace {
    pub log: u32,
    pub place: u64,
}

/// What logs come to that were read one after the other.
#[derive(Drop)]
pub(crate) struct LogsFound<H> {
    /// Of the last commit; or the first damage, behind which they were read all the same.
    pub number: Result<u64, DamagePlace>,
    pub frozen: Vec<FrozenLog>,
    /// The same as they wait for their flush, by the commits that are counted. Behind a damage none are.
    pub waiting: Vec<Waiting>,
    /// The logs that are held: those below head, and behind them each that another follows.
    pub sealed: Vec<SealedLog<H>>,
    pub last: Option<LastLog>,
}

/// The files that an opened store holds for its readers.
#[derive(Drop)]
pub(crate) struct HeldFiles<H: HeldFile> {
    /// The tables that the manifest names, for each level from 0 to 6, in its order.
    pub levels: Vec<Vec<Table<H>>>,
    /// The logs below head that tables lead into, and those from head on but for the last one. There is room for that too.
    pub sealed: Vec<SealedLog<H>>,
}
