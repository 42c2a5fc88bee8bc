// A cleared plan's steps, one after the other.
ghost use Rattle.std.specs.Prelude.{take};
ghost use Rattle.wire.specs.Payload.{payload};
ghost use Rattle.motion.specs.World.{world};
ghost use Rattle.walking.specs.OnMap.{StartedOn};
ghost use Rattle.resolve.specs.Whole.{WalkedTo};

use crate::TooManyMoves;
use layout::MapTables;
use motion::State;
use numbering::Vertex;
use stepping::follow::list_length_at;
use stepping::step::make_step;

// Walks `count` steps of the payload that stands in a checked file, which all pass, as long as the moves are not more than a list holds, and
// answers how many moves they are. The bytes of a step are read before the moves of the one before it are made.
pub fn walk<const L: usize>(
    file: &[u8],
    count: u16,
    map: &MapTables<L>,
    state: &mut State<128, 64>,
    out: &mut [u8],
) -> Result<usize, TooManyMoves>
    requires { StartedOn file.now count map.now state.old }
    ensures { (x : StartedOn file.now count map.now state.old) → WalkedTo x.map x.k (take x.len (payload file.now)) count (world state.old 0 out.old) result state.new out.new }
{
    let mut made: usize = 0;
    let mut o: usize = 2;
    let mut four = wire::payload_ahead(file, o);
    let steps = count as usize;
    for i in 0..steps {
        let over = 21503 < made;
        if over {
            return Err(TooManyMoves { made });
        }
        let e = list_length_at(map, state, Vertex(four.third));
        let next = o + 4 + e;
        let ahead = wire::payload_ahead(file, next);
        made = make_step(state, made, file, o, four, e, map, out);
        o = next;
        four = ahead;
    }
    Ok(made)
}
