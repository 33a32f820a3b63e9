//! The law that the disk in memory behaves according to its recorded calls. It is the contract of a function with an
//! empty body.
ghost use Rattle.std.specs.Prelude.{◌≡◌, ◌↔◌, List, length};
ghost use Rattle.keys.specs.Bytes.{Bytes};
ghost use Rattle.flush_log.specs.Commit.{Call, MayLeave, LeftDuring};
ghost use Rattle.flush_log.specs.Record.{view_of, AreCalls};

/// A crash now leaves one of the outcomes of a crash after the recorded calls, and a crash at any time since the record
/// began leaves one of the outcomes of a crash during these calls.
pub fn a_crash_leaves_what_the_recorded_calls_may_leave()
    ensures now { (file : Bytes) (calls : List Call) (c : Bytes) → AreCalls (length file) calls →
        (view_of file calls).may_leave c ↔ MayLeave calls file (λ d. d ≡ file) c }
    ensures since { (file : Bytes) (calls : List Call) (c : Bytes) → AreCalls (length file) calls →
        (view_of file calls).left_since 0 c ↔ LeftDuring calls file c }
{}
