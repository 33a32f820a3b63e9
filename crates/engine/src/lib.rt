//! The store: a tree of pages on which batches of commands are executed, and its log on a disk. A flush writes the tree
//! to the log, a clean frees a segment of the log, and an upgrade changes the version of the log.
//!
//! Other crates import items from this root, and laws from the public modules `laws` and `step_laws`.
#![tactic(auto)]

mod execute;
mod execute_one;
mod explain;
mod file_store;
mod group_reads;
mod handle;
mod hidden_disk;
pub mod laws;
mod leaf_tasks;
mod leaves;
mod options;
mod ordered_store;
mod reads;
mod refusal;
mod step;
pub mod step_laws;
mod store;
mod unfinished;

pub use crate::explain::{ExplainedFault, ExplainedOpenFault, file_remedy, meaning, remedy};
pub use crate::file_store::{OpenFault, admit_file, open_or_create, sync_folder};
pub use crate::handle::{Batch, Handle, Replies, Token};
pub use crate::options::{Access, Creation, OpenError, Options, create_disk};
pub use crate::ordered_store::{
    OrderedStore, SnapshotDisk, SnapshotStore, play, put_then_get, put_then_get_in_memory,
    put_twice_then_get,
};
pub use crate::step::{Answer, Step};
pub use crate::store::{BegunFlush, Store, StoreInMemory, Unwritten, WrittenFlush};
pub use crate::unfinished::is_unfinished;
pub use crew::{BadCrew, Crew, Gate, NoGate};
pub use flush_log::{
    CrashDisk, Disk, DiskFault, Failing, FaultDisk, FileDisk, Fill, LockFile, MemDisk,
};
pub use scan::{Range, Rows, RowsBack};
pub use verify::Report;
