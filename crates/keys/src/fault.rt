//! Faults: the reasons for which a call of the store is refused.
ghost use Rattle.std.specs.Prelude.{◌≡◌};
ghost use Rattle.keys.specs.declared.fault.Fault.TheVariants.{NoMemory};

use crate::finding::Finding;
use crate::settings::Field;
use std::alloc::{AllocError, AllocFailed};
use thiserror::Error;

/// Why a call of the store was refused. It prints as its number, its name and its fields, in decimal, separated by
/// single spaces. After any fault except `Device`, a batch, flush, clean or upgrade has changed nothing; calls that
/// take several such steps may have completed some of them.
#[derive(Debug, Drop, Error, PartialEq, Eq)]
pub enum Fault {
    /// This field of the settings is out of range.
    #[error("1 BadSettings {0}")]
    BadSettings(Field),
    /// The command at this place of the batch has a key longer than `max_key`.
    #[error("2 KeyTooLong {0}")]
    KeyTooLong(usize),
    /// The command at this place of the batch has a value longer than `max_value`.
    #[error("3 ValueTooLong {0}")]
    ValueTooLong(usize),
    /// The batch has more commands than a batch may have.
    #[error("4 BatchTooLong")]
    BatchTooLong,
    /// The crew has no workers or more than 64, or its grain (the number of jobs that a worker takes at a time) is 0
    /// or above 65,535.
    #[error("5 BadCrew")]
    BadCrew,
    /// An allocation failed.
    #[error("6 NoMemory")]
    NoMemory,
    /// An earlier call failed with `Device`: the store must be opened again from its disk.
    #[error("8 Failed")]
    Failed,
    /// A call of the disk failed. The pairs in memory are as before the call; what the call wrote may or may not be on
    /// the disk.
    #[error("9 Device")]
    Device,
    /// The write would leave no segment free.
    #[error("10 Full")]
    Full,
    /// The log occupies one segment, so there is no segment to clean.
    #[error("11 NothingToClean")]
    NothingToClean,
    /// The disk has no settings block, or is shorter than its settings require.
    #[error("12 NotAStore")]
    NotAStore,
    /// No slot is open, or an open slot is malformed.
    #[error("13 NoSlot")]
    NoSlot,
    /// The header of this segment is wrong.
    #[error("14 BadSegment {0}")]
    BadSegment(u64),
    /// At this offset of this segment there is neither a valid frame nor the end of the frames.
    #[error("15 BadFrame {0} {1}")]
    BadFrame(u64, u32),
    /// The tree breaks this rule at this page.
    #[error("16 BadStructure {0}")]
    BadStructure(Finding),
    /// The tree would have more than 64 levels, or a position or the sequence number would pass 2^62.
    #[error("17 Spent")]
    Spent,
    /// The disk is too short for the number of segments in the settings.
    #[error("18 DiskTooSmall")]
    DiskTooSmall,
    /// The log already has the second version.
    #[error("19 AlreadyUpgraded")]
    AlreadyUpgraded,
}

impl From<AllocError> for Fault {
    ghost from_gives = { λ _ fault. fault ≡ NoMemory };

    fn from(_refused: AllocError) -> Fault {
        Fault::NoMemory
    }
}

impl<T: Drop> From<AllocFailed<T>> for Fault {
    ghost from_gives = { λ _ fault. fault ≡ NoMemory };

    fn from(_refused: AllocFailed<T>) -> Fault {
        Fault::NoMemory
    }
}

impl<D: Drop> From<(Fault, D)> for Fault {
    ghost from_gives = { λ refused fault. fault ≡ refused.0 };

    fn from(refused: (Fault, D)) -> Fault {
        let (fault, _disk) = refused;
        fault
    }
}
