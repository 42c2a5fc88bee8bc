// The moves of a step: "Per step: the left zone, the entered zone, the crossing."
ghost use Rattle.std.specs.Prelude.{◌≡◌, List, ℕ, ◌*◌, ◌/◌, ◌≤◌, length, take};
ghost use Rattle.spec.specs.Layout.{Map};
ghost use Rattle.theory.specs.Maps.Consistent.{Consistent};
ghost use Rattle.wire.specs.Payload.{payload, FourAt};
ghost use Rattle.motion.specs.World.{world, made_all};
ghost use Rattle.walking.specs.Tests.{Passes, step_moves};
ghost use Rattle.walking.specs.Given.{Given};
ghost use Rattle.walking.specs.OnMap.{SteppingOn};

use crossing::sides::{enter_at, leave_at};
use layout::MapTables;
use motion::State;
use numbering::{Robot, Vertex};
use wire::Four;

// The moves of the step of four bytes at offset o, which passed its tests, with a follow list of n bytes.
pub fn make_step<const M: usize, const L: usize>(
    state: &mut State<128, M>,
    count: usize,
    file: &[u8],
    o: usize,
    four: Four,
    n: usize,
    map: &MapTables<L>,
    out: &mut [u8],
) -> usize
    requires stepping { SteppingOn file.now o n map.now state.old }
    requires four_at { FourAt file.now o four }
    ensures { (m : Map) (points k len : ℕ) (rows : List (List ℕ)) → Given m points k map.now.kind map.now.first map.now.size map.now.listed map.now.zone map.now.place rows → Consistent m k state.old → len ≤ length file.now / 512 * 504 → Passes m k (take len (payload file.now)) o state.old n → world state.new result out.new ≡ made_all (world state.old count out.old) (step_moves m (take len (payload file.now)) o n state.old) }
{
    let r = Robot(four.first);
    let u = Vertex(four.second);
    let v = Vertex(four.third);
    let from = o + 4;
    let left = leave_at(state, count, map, r, u, out);
    let room = enter_at(state, left, file, from, n, map, v, four.fourth, out);
    state.make(room, r, u, v, out)
}
