// Ending a ring: its lowest-numbered robot, and the other places as a hall.
ghost use Rattle.std.specs.Prelude.{◌≡◌, suc, ◌<◌, length, eqb, not, MatchOption};
ghost use Rattle.spec.specs.Arrangement.{order};
ghost use Rattle.spec.specs.Ring.{opened};
ghost use Rattle.spec.specs.State.{arrangement_of, robot_on};
ghost use Rattle.ring.specs.Ending.{lowest_cell};

use motion::State;
use numbering::{Robot, Vertex};

// "the ring's lowest-numbered cart"
pub fn lowest<const N: usize, const M: usize>(state: &State<N, M>, zone: &[u8]) -> Option<Robot>
    ensures { MatchOption result (lowest_cell (order (arrangement_of state.now zone.now)) ≡ 0)
        (λ r. lowest_cell (order (arrangement_of state.now zone.now)) ≡ suc r.0) }
{
    zone.iter()
        .map(
            |v|
                ensures { result.0 ≡ robot_on state.entry.now v.now }
            { state.robot_on(Vertex(*v)) },
        )
        .filter(
            |r|
                ensures { result ≡ not (eqb r.now.0 255) }
            { *r != Robot(255) },
        )
        .min()
}

// "the other places, from the one after it round to the one before it": the vertices of the ring but that of place j.
// A place and its ring stay two values: a pair would be made for this call alone.
pub fn open_at(zone: &[u8], j: usize, others: &mut [u8])
    requires { (j < length zone.now) × (suc (length others.old) ≡ length zone.now) }
    ensures { others.new ≡ opened j zone.now }
{
    let (after, before) = others.split_at_mut(zone.len() - 1 - j);
    after.copy_from_slice(&zone[j + 1..]);
    before.copy_from_slice(&zone[..j]);
}
