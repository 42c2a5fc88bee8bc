// Robots sent from place to place of a hall.
ghost use Rattle.std.specs.Prelude.{◌≡◌, ◌-◌, ◌++◌, length};
ghost use Rattle.spec.specs.State.{across};
ghost use Rattle.spec.specs.Hall.{down, up, trips, hall_moves};
ghost use Rattle.motion.specs.World.{world, made_all};

use cells::vertex_at;
use motion::State;
use numbering::Robot;

// Robot r goes from a place, place by place, down or up to another.
fn send<const N: usize, const M: usize>(
    state: &mut State<N, M>,
    count: usize,
    zone: &[u8],
    r: Robot,
    from: u8,
    to: u8,
    out: &mut [u8],
) -> usize
    ensures { world state.new result out.new ≡ made_all (world state.old count out.old) (across zone.now (down r.0 (from - to) to ++ up r.0 (to - from) from)) }
{
    let mut made = count;
    for at in (usize::from(to)..usize::from(from)).rev() {
        let v = vertex_at(zone, at + 1);
        let w = vertex_at(zone, at);
        made = state.make(made, r, v, w, out);
    }
    for at in usize::from(from)..usize::from(to) {
        let v = vertex_at(zone, at);
        let w = vertex_at(zone, at + 1);
        made = state.make(made, r, v, w, out);
    }
    made
}

// "Moving to given hall places": each robot of the line from its place to its goal, "carts going lower, lowest first, each all its way, then carts
// going higher, highest first".
pub fn settle<const N: usize, const M: usize>(
    state: &mut State<N, M>,
    count: usize,
    zone: &[u8],
    line: &[u8],
    places: &[u8],
    goals: &[u8],
    out: &mut [u8],
) -> usize
    requires { (length places.now ≡ length line.now) × (length goals.now ≡ length line.now) }
    ensures { world state.new result out.new ≡ made_all (world state.old count out.old) (across zone.now (hall_moves (trips line.now places.now goals.now))) }
{
    let mut made = count;
    for i in 0..line.len() {
        if goals[i] < places[i] {
            made = send(state, made, zone, Robot(line[i]), places[i], goals[i], out);
        }
    }
    for i in (0..line.len()).rev() {
        if places[i] < goals[i] {
            made = send(state, made, zone, Robot(line[i]), places[i], goals[i], out);
        }
    }
    made
}
