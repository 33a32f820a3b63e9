//! Splits the jobs of a round into pieces, and joins them again.
ghost use Rattle.std.specs.Prelude.{◌≡◌, ◌+◌, ◌<◌, ◌≤◌, ◌++◌, [], length, IfOk, OnOk, OnErr, vec_capacity};
ghost use Rattle.std.specs.Int.{div_ceil};
ghost use Rattle.crew.specs.Pieces.{jobs_of};

use std::alloc::AllocError;

/// Splits the jobs into pieces of `grain` jobs; the last piece may be shorter. Empties the list, which keeps its
/// capacity. If allocation fails, the list is unchanged.
pub(crate) fn cut<J: Drop>(jobs: &mut Vec<J>, grain: usize) -> Result<Vec<Vec<J>>, AllocError>
    requires grain { 0 < grain }
    ensures pieces { IfOk result (λ pieces. jobs_of pieces.items ≡ jobs.old.items) }
    ensures few { IfOk result
        (λ pieces. length pieces.items ≤ div_ceil (length jobs.old.items) grain) }
    ensures emptied { OnOk result (jobs.new.items ≡ []) }
    ensures kept { OnErr result (jobs.new.items ≡ jobs.old.items) }
    ensures room { vec_capacity jobs.old ≤ vec_capacity jobs.new }
{
    let mut pieces = Vec::with_capacity(*jobs.allocator(), jobs.len().div_ceil(grain))?;
    // The last piece is made first.
    while !jobs.is_empty() {
        match jobs.split_off((jobs.len() - 1) / grain * grain) {
            Ok(piece) => pieces.push_reserved(piece),
            Err(refused) => {
                pieces.reverse();
                put_together(jobs, pieces);
                return Err(refused);
            }
        }
    }
    pieces.reverse();
    Ok(pieces)
}

/// Appends the jobs of the pieces to the list, which has room for them. Does not allocate.
pub(crate) fn put_together<J: Drop>(jobs: &mut Vec<J>, mut pieces: Vec<Vec<J>>)
    requires room { length jobs.old.items + length (jobs_of pieces.items) ≤ vec_capacity jobs.old }
    ensures jobs { jobs.new.items ≡ jobs.old.items ++ jobs_of pieces.items }
    ensures same { vec_capacity jobs.old ≤ vec_capacity jobs.new }
{
    pieces.reverse();
    while let Some(mut piece) = pieces.pop() {
        let _fits = jobs.append(&mut piece);
    }
}
