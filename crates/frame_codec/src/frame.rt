//! A decoded frame of the log.
use crate::format::KeyEncoding;
use delta_chain::{Base, Run};
use keys::{Key, Pid, Value};
use std::alloc::Global;

/// A frame of the log: a record about the page with this id. `frame_of` of `specs/Shown.antt` is the corresponding
/// frame of the definitions.
#[derive(Drop)]
pub enum Frame {
    /// A full image of a leaf: its low key, its base, and the encoding of the base's keys.
    FullLeaf {
        pid: Pid,
        encoding: KeyEncoding,
        low: Key<Global>,
        base: Base<Value<Global>, Global>,
    },
    /// A run that was prepended to a leaf.
    DeltaLeaf {
        pid: Pid,
        run: Run<Value<Global>, Global>,
    },
    /// A full image of an index page: its low key, its base, and the encoding of the base's keys.
    FullIndex {
        pid: Pid,
        encoding: KeyEncoding,
        low: Key<Global>,
        base: Base<Pid, Global>,
    },
    /// A run that was prepended to an index page.
    DeltaIndex {
        pid: Pid,
        run: Run<Pid, Global>,
    },
    /// The page was freed.
    Free {
        pid: Pid,
    },
}
