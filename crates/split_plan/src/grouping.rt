//! Which children of one parent are merged with each other.
ghost use Rattle.std.specs.Prelude.{◌≡◌, ◌≤◌, map, length, IfOk, IsOk};
ghost use Rattle.page_runs.specs.Updated.{is_thin_class};
ghost use Rattle.split_plan.specs.Groups.{groups};

use page_runs::Class;
use smallvec::SmallVec;
use std::alloc::{AllocError, Global};

/// Returns the number of members of each group of one parent's children, in order. `classes` are the classes of the
/// children: each child that isn't thin begins a group, a thin one joins the group on its left, and leading thin ones
/// join the first group. Up to 32 groups need no allocation; `Err` means that allocation failed.
pub fn groups(alloc: Global, classes: &[Class]) -> Result<SmallVec<usize, 32>, AllocError>
    ensures sizes { IfOk result
        (λ sizes. sizes.items ≡ map length (groups is_thin_class classes.now)) }
    ensures inline { length (groups is_thin_class classes.now) ≤ 32 → IsOk result }
{
    let mut sizes = SmallVec::new(alloc);
    let mut members = 0;
    let mut has_begun = false;
    for class in classes {
        if *class != Class::Thin {
            if has_begun {
                sizes.push(members)?;
                members = 0;
            }
            has_begun = true;
        }
        members += 1;
    }
    if members > 0 {
        sizes.push(members)?;
    }
    Ok(sizes)
}
