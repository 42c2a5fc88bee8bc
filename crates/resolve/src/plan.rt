// A whole cleared plan resolved: the count, the steps, the endings.
ghost use Rattle.std.specs.Prelude.{take};
ghost use Rattle.wire.specs.Payload.{payload};
ghost use Rattle.walking.specs.OnMap.{ClearedOn};
ghost use Rattle.resolve.specs.Whole.{ResolvedOr};

use crate::TooManyMoves;
use crate::walk::walk;
use bringing::ending::end_zones;
use layout::MapTables;
use motion::State;

// Resolves the plan whose payload stands in a checked file, and which is cleared: the moves are laid into the buffer, after the two bytes of the
// count, and counted.
pub fn resolve_plan<const L: usize>(
    file: &[u8],
    map: &MapTables<L>,
    starts: [u8; 64],
    goals: [u8; 64],
    k: usize,
    out: &mut [u8],
) -> Result<usize, TooManyMoves>
    requires { ClearedOn file.now map.now k starts goals }
    ensures { (x : ClearedOn file.now map.now k starts goals) → ResolvedOr x.on.map x.on.placing (take x.len (payload file.now)) out.old out.new result }
{
    let count = wire::payload_word(file, 0);
    let mut state = State::standing(starts, k);
    let targets = State::standing(goals, k);
    let made = walk(file, count, map, &mut state, out)?;
    Ok(end_zones(&mut state, made, map, &targets, out))
}
