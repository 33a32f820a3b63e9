//! The vocabulary of all layers of the engine: keys, values and page ids, settings, the version of a log, commands and
//! their replies, and the faults. `specs/` defines the order of keys, the ordered map, and the effect of each command
//! on it. Other crates import items from this root, and laws from the public module `laws`.
#![tactic(auto)]

mod cell;
mod command;
mod fault;
mod finding;
mod kept_bytes;
mod key;
mod key_ref;
pub mod laws;
mod order;
mod pid;
mod piece;
mod pieces;
mod row_list;
mod settings;
mod short_bytes;
mod shown;
mod value;
mod version;

pub use crate::cell::Cell;
pub use crate::command::{Command, Reply};
pub use crate::fault::Fault;
pub use crate::finding::Finding;
pub use crate::key::Key;
pub use crate::key_ref::{KeyRef, KeyWithWord};
pub use crate::order::{compare, is_before};
pub use crate::pid::Pid;
pub use crate::piece::Piece;
pub use crate::pieces::{EmptyScan, Pieces};
pub use crate::row_list::{RowIter, RowList};
pub use crate::settings::{Field, Settings};
pub use crate::value::Value;
pub use crate::version::Version;
