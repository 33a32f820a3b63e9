//! How the frames of the two kinds of pages are written.
use delta_chain::{Base, Run};
use frame_codec::{
    KeyEncoding, write_delta_index, write_delta_leaf, write_full_index, write_full_leaf,
};
use keys::{Pid, Value};
use std::alloc::{AllocError, Allocator, Global};

/// A kind of page, by the cells of its pages: values for leaves, page ids for index pages.
pub(crate) trait Kind<A: Allocator>: Drop {
    ghost use Rattle.std.specs.Prelude.{◌≡◌, ◌++◌, OnOk, OnErr};
    ghost use Rattle.keys.specs.Bytes.{Bytes, Pairs, Changes};
    ghost use Rattle.frame_codec.specs.declared.format.KeyEncoding as encodings;
    ghost use Rattle.frame_codec.specs.Frame.{Content, bytes_of};
    ghost use Rattle.frame_codec.specs.Sized.{IsSized, FitsU64};

    // The content of the frames of such a page: a base under a low key with a key encoding, and a run.
    ghost full: { encodings.KeyEncoding → Bytes → Pairs Self → Content };

    ghost delta: { Changes Self → Content };

    /// Appends the frame of a base under its low key. If allocation fails, appends nothing.
    fn write_full(
        pid: Pid,
        encoding: KeyEncoding,
        low: &[u8],
        base: &Base<Self, A>,
        out: &mut Vec<u8>,
    ) -> Result<(), AllocError>
        requires { IsSized (full encoding low.now base.now) }
        ensures ok { OnOk result (out.new.items ≡ out.old.items
            ++ bytes_of (record { pid = pid; content = full encoding low.now base.now })) }
        ensures words { OnOk result
            (FitsU64 (record { pid = pid; content = full encoding low.now base.now })) }
        ensures err { OnErr result (out.new.items ≡ out.old.items) };

    /// Appends the frame of a run. If allocation fails, appends nothing.
    fn write_delta(pid: Pid, run: &Run<Self, A>, out: &mut Vec<u8>) -> Result<(), AllocError>
        requires { IsSized (delta run.now) }
        ensures ok { OnOk result (out.new.items
            ≡ out.old.items ++ bytes_of (record { pid = pid; content = delta run.now })) }
        ensures words { OnOk result (FitsU64 (record { pid = pid; content = delta run.now })) }
        ensures err { OnErr result (out.new.items ≡ out.old.items) };
}

impl Kind<Global> for Value<Global> {
    ghost use Rattle.std.specs.Prelude.{◌≡◌, ◌++◌, OnOk, OnErr};
    ghost use Rattle.frame_codec.specs.Frame.{bytes_of};
    ghost use Rattle.frame_codec.specs.Frame.Content.{FullLeaf, DeltaLeaf};
    ghost use Rattle.frame_codec.specs.Sized.{IsSized, FitsU64};

    ghost full = { FullLeaf };

    ghost delta = { DeltaLeaf };

    fn write_full(
        pid: Pid,
        encoding: KeyEncoding,
        low: &[u8],
        base: &Base<Self, Global>,
        out: &mut Vec<u8>,
    ) -> Result<(), AllocError>
        requires { IsSized (FullLeaf encoding low.now base.now) }
        ensures ok { OnOk result (out.new.items ≡ out.old.items
            ++ bytes_of (record { pid = pid; content = FullLeaf encoding low.now base.now })) }
        ensures words { OnOk result
            (FitsU64 (record { pid = pid; content = FullLeaf encoding low.now base.now })) }
        ensures err { OnErr result (out.new.items ≡ out.old.items) }
    {
        write_full_leaf(pid, encoding, low, base, out)
    }

    fn write_delta(pid: Pid, run: &Run<Self, Global>, out: &mut Vec<u8>) -> Result<(), AllocError>
        requires { IsSized (DeltaLeaf run.now) }
        ensures ok { OnOk result (out.new.items
            ≡ out.old.items ++ bytes_of (record { pid = pid; content = DeltaLeaf run.now })) }
        ensures words { OnOk result (FitsU64 (record { pid = pid; content = DeltaLeaf run.now })) }
        ensures err { OnErr result (out.new.items ≡ out.old.items) }
    {
        write_delta_leaf(pid, run, out)
    }
}

impl Kind<Global> for Pid {
    ghost use Rattle.std.specs.Prelude.{◌≡◌, ◌++◌, OnOk, OnErr};
    ghost use Rattle.frame_codec.specs.Frame.{bytes_of};
    ghost use Rattle.frame_codec.specs.Frame.Content.{FullIndex, DeltaIndex};
    ghost use Rattle.frame_codec.specs.Sized.{IsSized, FitsU64};

    ghost full = { FullIndex };

    ghost delta = { DeltaIndex };

    fn write_full(
        pid: Pid,
        encoding: KeyEncoding,
        low: &[u8],
        base: &Base<Self, Global>,
        out: &mut Vec<u8>,
    ) -> Result<(), AllocError>
        requires { IsSized (FullIndex encoding low.now base.now) }
        ensures ok { OnOk result (out.new.items ≡ out.old.items
            ++ bytes_of (record { pid = pid; content = FullIndex encoding low.now base.now })) }
        ensures words { OnOk result
            (FitsU64 (record { pid = pid; content = FullIndex encoding low.now base.now })) }
        ensures err { OnErr result (out.new.items ≡ out.old.items) }
    {
        write_full_index(pid, encoding, low, base, out)
    }

    fn write_delta(pid: Pid, run: &Run<Self, Global>, out: &mut Vec<u8>) -> Result<(), AllocError>
        requires { IsSized (DeltaIndex run.now) }
        ensures ok { OnOk result (out.new.items
            ≡ out.old.items ++ bytes_of (record { pid = pid; content = DeltaIndex run.now })) }
        ensures words { OnOk result
            (FitsU64 (record { pid = pid; content = DeltaIndex run.now })) }
        ensures err { OnErr result (out.new.items ≡ out.old.items) }
    {
        write_delta_index(pid, run, out)
    }
}
