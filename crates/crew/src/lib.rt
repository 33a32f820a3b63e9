//! The interface of a kind of work: a job is turned into an output, or is returned unchanged if allocation fails.
//! Rounds of work, in one thread or in several, need only this contract. Other crates import items from this root, and
//! laws from the public module `laws`.
#![tactic(auto)]

ghost use Rattle.std.specs.Prelude.{◌≡◌};
ghost use Rattle.crew.specs.Turn.{IfDone, IfBack};

mod drawn;
mod dropping;
mod entry;
mod home;
mod in_turn;
pub mod laws;
mod limits;
mod machine;
mod marks;
mod pieces;
mod progress;
mod rounds;

pub use crate::dropping::drop_all;
pub use crate::entry::{Gate, NoGate};
pub use crate::limits::{BadCrew, Crew};
pub use crate::machine::{Event, Mark};
pub use crate::marks::Round;
pub use crate::rounds::run_round;

/// The result of one job.
#[derive(Drop)]
pub enum Turn<J, D> {
    /// The output of the job.
    Done(D),
    /// An allocation failed; this is the unchanged job.
    Back(J),
}

/// How much of a job's memory is read ahead.
#[derive(Clone, Copy, PartialEq, Eq)]
pub enum Depth {
    Near,
    Far,
}

/// A kind of work. Its jobs and outputs can be sent between threads, and the work itself can be shared by threads.
pub trait Work: Sync {
    /// The input of the work. It is moved, so that a page is at one place at any time.
    type Job: Send + Drop;

    /// The output of the work. It contains everything that `undo` needs to restore the job.
    type Done: Send + Drop;

    // The input and the output as plain data, without capacities and addresses.
    ghost Held: { Type 0 };

    ghost Made: { Type 0 };

    // The valid inputs.
    ghost accepts: { Self → Held → Type 0 };

    ghost held: { Self.Job → Held };

    // The input that led to this output.
    ghost origin: { Self.Done → Held };

    // The output as plain data.
    ghost outcome: { Self.Done → Made };

    // The output as a function of the input.
    ghost made: { Self → Held → Made };

    /// Does the job. Returns `Back` with the unchanged job only if allocation fails.
    fn work(&self, job: Self::Job) -> Turn<Self::Job, Self::Done>
        requires { accepts self.now (held job) }
        ensures origin { IfDone result (λ done. origin done ≡ held job) }
        ensures made { IfDone result (λ done. outcome done ≡ made self.now (held job)) }
        ensures back { IfBack result (λ again. held again ≡ held job) };

    /// Reads memory that `work` will read for this job: with `Depth::Near` what the job itself refers to, with
    /// `Depth::Far` what that refers to. The rounds call this for several jobs before they do them, so that the processor
    /// waits for their memory once. The result means nothing.
    fn look(&self, _job: &Self::Job, _depth: Depth) -> u64 {
        0
    }

    /// Restores the job from its output. Does not allocate.
    fn undo(&self, done: Self::Done) -> Self::Job
        ensures { held result ≡ origin done };
}
