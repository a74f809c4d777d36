// Making an arena.
ghost use Rattle.model.specs.Calls.{Make};

use model::Refusal;
use words::fields::arena_head;

// Fills the slice with 0 but for word 0, which names the segments.
#[tactic(auto, unfolding(model::specs::Calls::make_refusal))]
pub fn make(arena: &mut [u32], segments: u32) -> Result<(), Refusal>
    ensures { Make arena.old segments result arena.new }
{
    if !(1..=64).contains(&segments) || arena.len() != 11 + 4164 * segments as usize {
        return Err(Refusal::BadSize);
    }
    arena.fill(0);
    arena[0] = arena_head(segments);
    Ok(())
}
