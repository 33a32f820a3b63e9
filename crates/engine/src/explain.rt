//! Explanations of faults: what to do about a fault, and what it means. Programs that print faults share these texts.
//!
//! What to do comes first, because a program may show only the beginning of a text. With a path of 40 bytes, each text
//! is shorter than 120 bytes, which is how much `anyhow` keeps.
use crate::file_store::OpenFault;
use keys::{Fault, Field};
use std::io::ErrorKind;
use std::{fmt, io};

/// Returns what a fault means, in a sentence.
pub fn meaning(fault: &Fault) -> &'static str {
    match fault {
        Fault::BadSettings(_) => "A setting is out of range.",
        Fault::KeyTooLong(_) => "A key is too long for the store.",
        Fault::ValueTooLong(_) => "A value is too long for the store.",
        Fault::BatchTooLong => "More than 65535 commands do the batch or undo it.",
        Fault::BadCrew => "The crew is out of range.",
        Fault::NoMemory => "An allocation failed.",
        Fault::Failed => "The disk failed in an earlier call.",
        Fault::Device => "A call of the disk failed.",
        Fault::Full => "The log has no room for this.",
        Fault::NothingToClean => "The log is in one segment, so there is nothing to clean.",
        Fault::NotAStore => "The file holds no store, or a part of one.",
        Fault::NoSlot | Fault::BadSegment(_) | Fault::BadFrame(_, _) | Fault::BadStructure(_) =>
            "The store in the file is damaged.",
        Fault::Spent => "This needs more levels or larger numbers than a store can have.",
        Fault::DiskTooSmall => "The disk is too small for the segments.",
        Fault::AlreadyUpgraded => "The log has version 2 already.",
    }
}

/// Returns what to do about a fault, in a sentence, or an empty string if there is no advice.
pub fn remedy(fault: &Fault) -> &'static str {
    match fault {
        Fault::BadSettings(field) => range_of(*field),
        Fault::KeyTooLong(_) => "Shorten the key, or copy the store with a larger max_key.",
        Fault::ValueTooLong(_) => "Shorten the value, or copy the store with a larger max_value.",
        Fault::BatchTooLong => "Divide the batch or its wipes.",
        Fault::BadCrew => "Take 1 to 64 workers, and a grain of 1 to 65535.",
        Fault::NoMemory => "Use smaller batches or more memory.",
        Fault::Failed | Fault::Device => "Open the store again, with room on its device.",
        Fault::Full => "If cleaning does not help, copy the store into a larger log.",
        Fault::NotAStore => "Check the path.",
        Fault::NoSlot | Fault::BadSegment(_) | Fault::BadFrame(_, _) | Fault::BadStructure(_) =>
            "Restore a backup.",
        Fault::DiskTooSmall => "Use fewer segments.",
        _ => "",
    }
}

// Returns what a setting may be, in a sentence.
fn range_of(field: Field) -> &'static str {
    match field {
        Field::Fan => "The setting fan must be from 4 to 64.",
        Field::Chain => "The setting chain must be from 1 to 16.",
        Field::MaxKey => "The setting max_key must be from 1 to 255.",
        Field::MaxValue => "The setting max_value must be from 0 to 1024.",
        Field::SegSize => "The setting seg_size must be from 256 to 1048576, and hold a full page.",
        Field::Segments => "The setting segments must be from 3 to 65536; fewer pairs need fewer.",
    }
}

/// Returns what to do if a file cannot be used for this reason, or an empty string if there is no advice.
pub fn file_remedy(reason: &io::Error) -> &'static str {
    match reason.kind() {
        ErrorKind::NotFound => "The file or its folder must exist.",
        ErrorKind::ReadOnlyFilesystem => "Open it there only for reading.",
        ErrorKind::WouldBlock => "Another program has locked the file.",
        ErrorKind::AlreadyExists => "A new store needs a path without a file.",
        ErrorKind::StorageFull => "Free some space on its device.",
        ErrorKind::IsADirectory => "A store has to be a file.",
        _ => "",
    }
}

// Writes what a fault means, or its command or its place in the log.
fn write_meaning<W: fmt::Write>(fault: &Fault, f: &mut fmt::Formatter<W>) -> fmt::Result {
    match fault {
        Fault::KeyTooLong(place) | Fault::ValueTooLong(place) if *place > 0 => {
            write!(f, "It is in command {place} of the batch, counted from 0.")
        }
        Fault::NoSlot | Fault::BadSegment(_) | Fault::BadFrame(_, _) | Fault::BadStructure(_) =>
            write!(f, "The file is damaged: {fault}."),
        _ => f.write_str(meaning(fault)),
    }
}

/// Displays a fault in words: what to do about it, and then what it means, or which command of the batch it is about.
#[derive(Drop)]
pub struct ExplainedFault<'a>(pub &'a Fault);

impl<'a> fmt::Display for ExplainedFault<'a> {
    fn fmt<W: fmt::Write>(&self, f: &mut fmt::Formatter<W>) -> fmt::Result {
        let remedy = remedy(self.0);
        if let Fault::BadSettings(_) = self.0 {
            return f.write_str(remedy);
        }
        if !remedy.is_empty() {
            write!(f, "{remedy} ")?;
        }
        write_meaning(self.0, f)
    }
}

/// Displays why the store in the file at `path` was not opened, and what to do about it.
#[derive(Drop)]
pub struct ExplainedOpenFault<'a> {
    pub path: &'a str,
    pub fault: &'a OpenFault,
}

impl<'a> fmt::Display for ExplainedOpenFault<'a> {
    fn fmt<W: fmt::Write>(&self, f: &mut fmt::Formatter<W>) -> fmt::Result {
        let path = self.path;
        match self.fault {
            OpenFault::Locked => {
                write!(
                    f,
                    "{path}: Wait until the program that has locked the file ends."
                )
            }
            OpenFault::File(reason) => {
                let remedy = file_remedy(reason);
                let space = if remedy.is_empty() { "" } else { " " };
                write!(f, "{path}: {reason}.{space}{remedy}")
            }
            OpenFault::Store(fault) => {
                let explained = ExplainedFault(fault);
                write!(f, "{path}: {explained}")
            }
        }
    }
}
