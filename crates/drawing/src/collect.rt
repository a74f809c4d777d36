// Collecting.
ghost use Rattle.std.specs.Prelude.{◌≡◌};
ghost use Rattle.model.specs.Standing.{taken_count};
ghost use Rattle.model.specs.Numbers.{granted};
ghost use Rattle.model.specs.Calls.{Granted, Collect, collect_refusal};
ghost use Rattle.drawing.specs.Refusal.{CollectRefusal};

use crate::look::judged;
use model::Refusal;
use ranking::rank_anew;
use trace::trace;

// What is left once no refusal applies: the list, then the records and places that follow from it.
fn collect_sound(arena: &mut [u32], roots: &[u32], list: &mut [u32], taken: usize) -> u32
    requires unrefused { collect_refusal arena.old roots.now list.old ≡ granted }
    requires all { taken ≡ taken_count arena.old }
    ensures { Granted arena.old roots.now list.old result arena.new list.new }
{
    let mut marks = [0u32; 4097];
    let c = trace(arena, roots, list, &mut marks, taken);
    rank_anew(arena, &marks);
    c
}

// How many blocks are taken, unless a collection with a work list of so many words is refused.
#[tactic(auto, unfolding(model::specs::Calls::collect_refusal))]
fn taken_if_granted(arena: &[u32], roots: &[u32], room: usize) -> Result<usize, Refusal>
    ensures { CollectRefusal arena.now roots.now room result }
{
    let mut row = [0u32; 8192];
    let judged = judged(arena, &mut row)?;
    if !judged.all_none_or_taken(roots) {
        return Err(Refusal::BadRoot);
    }
    let taken = judged.taken_count() as usize;
    if room < taken {
        return Err(Refusal::ShortList);
    }
    Ok(taken)
}

// Lists the reachable blocks in drawing order and frees the others. All that may refuse is asked before any
// word is altered.
pub fn collect(arena: &mut [u32], roots: &[u32], list: &mut [u32]) -> Result<u32, Refusal>
    ensures { Collect arena.old roots.now list.old result arena.new list.new }
{
    let taken = taken_if_granted(arena, roots, list.len())?;
    Ok(collect_sound(arena, roots, list, taken))
}
