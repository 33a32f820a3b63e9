//! Laws about every round of work. Each law is the contract of a function with an empty body.
ghost use Rattle.std.specs.Prelude.{◌≡◌, ℕ, List};
ghost use Rattle.crew.specs.Round.{joined, round};
ghost use Rattle.crew.specs.Marks.{mark_at};
ghost use Rattle.crew.specs.SoundRound.{IsSoundRound};
ghost use Rattle.crew.specs.declared.machine.Event.{Event};

/// After any events, each job is at exactly one place, and a collected result is the output of the job with its number,
/// or that job. When all jobs are collected with outputs, these are the outputs of the jobs in their order.
pub fn rounds_are_sound<J, D>()
    ensures { (made : J → D) (pieces : List (List J)) (workers : ℕ) (events : List Event) →
        IsSoundRound made (joined pieces) (round made pieces workers events) }
{}

/// Which jobs are collected, and whether with an output, does not depend on what the work computes. So the result of
/// `Round::after` holds for any work.
pub fn marks_are_the_same_for_all_work<J, D>()
    ensures { (made : J → D) (pieces : List (List J)) (workers : ℕ)
        (events : List Event) (job : ℕ) →
        mark_at (round made pieces workers events) job
        ≡ mark_at (round (λ j. j) pieces workers events) job }
{}
