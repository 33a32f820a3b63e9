//! The results of a round, collected from the workers by piece.
ghost use Rattle.std.specs.Prelude.{◌≡◌, ◌+◌, ◌^◌, ◌<◌, ◌≤◌, ◌++◌, ◌∷◌, [], map, length, IfOk, IfErr, vec_capacity};
ghost use Rattle.std.specs.List.{AllByRecursion, flat_map};
ghost use Rattle.crew.specs.Home.{placed, undrawn, home_origins, IsMadeHome};

use crate::Work;
use crate::in_turn::undo_made;

/// The result of the piece with this number: the outputs of its jobs, or the unchanged jobs.
#[derive(Drop)]
pub(crate) struct PieceResult<J, D> {
    pub(crate) number: u64,
    pub(crate) made: Result<Vec<D>, Vec<J>>,
}

/// The result of a piece, once it is collected.
pub(crate) type Home<J, D> = Option<Result<Vec<D>, Vec<J>>>;

fn place<J: Drop, D: Drop>(homes: &mut Vec<Home<J, D>>, worked: PieceResult<J, D>)
    ensures { homes.new.items ≡ placed homes.old.items (worked ∷ []) }
{
    let PieceResult { number, made } = worked;
    let index = number as usize;
    if index < homes.len() {
        homes[index] = Some(made);
    }
}

pub(crate) fn place_all<J: Drop, D: Drop>(homes: &mut Vec<Home<J, D>>, all: Vec<PieceResult<J, D>>)
    ensures { homes.new.items ≡ placed homes.old.items all.items }
{
    for worked in all {
        place(homes, worked);
    }
}

/// Puts unclaimed pieces at their places, from number `from` on.
pub(crate) fn place_left<J: Drop, D: Drop>(
    homes: &mut Vec<Home<J, D>>,
    from: u64,
    left: Vec<Vec<J>>,
)
    requires { from + length left.items < 2 ^ 64 }
    ensures { homes.new.items ≡ placed homes.old.items (undrawn from left.items) }
{
    let mut number = from;
    for piece in left {
        let made = Err(piece);
        place(homes, PieceResult { number, made });
        number += 1;
    }
}

/// Returns the outputs of all jobs in order; or, if a piece was returned unchanged, undoes the others and returns all
/// jobs. Does not allocate, because both lists have room for everything.
pub(crate) fn gather<W: Work>(
    work: &W,
    homes: Vec<Home<W::Job, W::Done>>,
    mut dones: Vec<W::Done>,
    mut jobs: Vec<W::Job>,
) -> Result<Vec<W::Done>, Vec<W::Job>>
    requires made { AllByRecursion (IsMadeHome W.Work work.now) homes.items }
    requires empty { (jobs.items ≡ []) × (dones.items ≡ []) }
    requires room { (length (flat_map (home_origins W.Work) homes.items) ≤ vec_capacity jobs)
        × (length (flat_map (home_origins W.Work) homes.items) ≤ vec_capacity dones) }
    ensures made { IfOk result (λ dones. map W.outcome dones.items
        ≡ map (W.made work.now) (flat_map (home_origins W.Work) homes.items)) }
    ensures origin { IfOk result
        (λ dones. map W.origin dones.items ≡ flat_map (home_origins W.Work) homes.items) }
    ensures held { IfErr result
        (λ again. map W.held again.items ≡ flat_map (home_origins W.Work) homes.items) }
{
    let mut refused = false;
    for home in homes {
        match home {
            Some(Ok(mut made)) => {
                let _fits = dones.append(&mut made);
            }
            Some(Err(mut back)) => {
                refused = true;
                undo_made(work, &mut dones, &mut jobs);
                let _fits = jobs.append(&mut back);
            }
            None => {}
        }
    }
    if refused {
        undo_made(work, &mut dones, &mut jobs);
        return Err(jobs);
    }
    Ok(dones)
}
