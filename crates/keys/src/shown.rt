//! How keys, values and rows print in messages: as `b"text"`, with every byte escaped that is not printable ASCII.
use crate::key::Key;
use crate::row_list::RowList;
use crate::value::Value;
use std::alloc::Allocator;
use std::fmt;

// Writes `bytes` as a byte string literal.
fn write_bytes<W: fmt::Write>(bytes: &[u8], f: &mut fmt::Formatter<W>) -> fmt::Result {
    f.write_str("b\"")?;
    for byte in bytes {
        write!(f, "{}", byte.escape_ascii())?;
    }
    f.write_str("\"")
}

impl<A: Allocator> fmt::Debug for Key<A> {
    fn fmt<W: fmt::Write>(&self, f: &mut fmt::Formatter<W>) -> fmt::Result {
        write_bytes(self.as_bytes(), f)
    }
}

impl<A: Allocator> fmt::Debug for Value<A> {
    fn fmt<W: fmt::Write>(&self, f: &mut fmt::Formatter<W>) -> fmt::Result {
        write_bytes(self.as_bytes(), f)
    }
}

// Writes the comma in front of a row that is not the first one.
fn write_comma<W: fmt::Write>(is_first: bool, f: &mut fmt::Formatter<W>) -> fmt::Result {
    f.write_str(if is_first { "" } else { ", " })
}

fn write_row<W: fmt::Write>(key: &[u8], value: &[u8], f: &mut fmt::Formatter<W>) -> fmt::Result {
    write_bytes(key, f)?;
    f.write_str("=")?;
    write_bytes(value, f)
}

impl<A: Allocator> fmt::Debug for RowList<A> {
    fn fmt<W: fmt::Write>(&self, f: &mut fmt::Formatter<W>) -> fmt::Result {
        f.write_str("[")?;
        let mut is_first = true;
        for (key, value) in self {
            write_comma(is_first, f)?;
            write_row(key, value, f)?;
            is_first = false;
        }
        f.write_str("]")
    }
}
