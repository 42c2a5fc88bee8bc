// The robots of a hall with their places, lowest first.
ghost use Rattle.std.specs.Prelude.{◌≤◌, length};
ghost use Rattle.spec.specs.State.{arrangement_of};
ghost use Rattle.lineup.specs.Line.{Lined};

use motion::State;
use numbering::{Robot, Vertex, ZoneVertices};

// How many robots stand in a zone; they and their places are written to the first of the lent bytes.
pub fn line_up<const N: usize, const M: usize>(
    state: &State<N, M>,
    zone: ZoneVertices,
    line: &mut [u8],
    places: &mut [u8],
) -> usize
    requires { (length zone.vertices.now ≤ length line.old) × (length zone.vertices.now ≤ length places.old) }
    ensures { Lined (arrangement_of state.now zone.entry.vertices.now) result line.new places.new }
{
    let mut n: usize = 0;
    for (k, v) in zone.vertices.iter().enumerate() {
        let r = state.robot_on(Vertex(*v));
        if r != Robot(255) {
            line[n] = r.0;
            places[n] = k as u8;
            n += 1;
        }
    }
    n
}
