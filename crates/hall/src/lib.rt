// Halls and stacks in motion (document 01, "Which moves are written"): leaving, entering and ending.
//
//     trips   robots sent from place to place
#![tactic(auto)]

ghost use Rattle.std.specs.Prelude.{◌≡◌, ℕ, ◌≤◌, ◌<◌, length, min};
ghost use Rattle.std.specs.Fn.{FnReturnsAt};
ghost use Rattle.spec.specs.Arrangement.{order};
ghost use Rattle.spec.specs.Outcome.{index_of};
ghost use Rattle.spec.specs.Hall.{hall_leave, hall_enter, hall_end};
ghost use Rattle.spec.specs.State.{across, arrangement_of};
ghost use Rattle.motion.specs.World.{world, made_all};
ghost use Rattle.lineup.specs.Goals.{lower_of};
ghost use Rattle.hall.specs.Ends.{way_at};

mod trips;

use lineup::goals::{index_of, lower_than, spread};
use lineup::line::line_up;
use motion::State;
use numbering::{Place, Robot, ZoneVertices};
use trips::settle;

// The robots of a hall make way at place j: `below` says of their line how many go below it, and m go onto it.
#[tactic(auto, using(motion::specs::Across::arrangement_length, crate::specs::Ends::length_first))]
fn make_way<F: Fn(&[u8]) -> usize, const N: usize, const M: usize>(
    state: &mut State<N, M>,
    count: usize,
    zone: ZoneVertices,
    below: F,
    m: usize,
    j: Place,
    out: &mut [u8],
) -> usize
    requires called { F.IsAlwaysCallable below }
    ensures { (t : ℕ) × FnReturnsAt F.Fn below (order (arrangement_of state.old zone.entry.vertices.now)) t × (world state.new result out.new ≡ made_all (world state.old count out.old) (across zone.entry.vertices.now (way_at (arrangement_of state.old zone.entry.vertices.now) t m j.index))) }
{
    let mut line = [0u8; 128];
    let mut places = [0u8; 128];
    let mut goals = [0u8; 128];
    let n = line_up(state, zone, &mut line, &mut places);
    let t = below(&line[..n]);
    spread(&places[..n], t, t.saturating_add(m), j, &mut goals);
    settle(
        state,
        count,
        zone.vertices,
        &line[..n],
        &places[..n],
        &goals[..n],
        out,
    )
}

// "Hall or stack, leaving at j": robot r goes to place j, those below and above it out of its way.
pub fn leave<const N: usize, const M: usize>(
    state: &mut State<N, M>,
    count: usize,
    zone: ZoneVertices,
    r: Robot,
    j: Place,
    out: &mut [u8],
) -> usize
    ensures { world state.new result out.new ≡ made_all (world state.old count out.old) (across zone.entry.vertices.now (hall_leave (arrangement_of state.old zone.entry.vertices.now) r.0 j.index)) }
{
    make_way(
        state,
        count,
        zone,
        |line|
            ensures { result ≡ index_of r.0 line.now }
        { index_of(line, r.0) },
        1,
        j,
        out,
    )
}

// "Entering at j": the named robot and those lower go below place j, the rest above it.
pub fn enter<const N: usize, const M: usize>(
    state: &mut State<N, M>,
    count: usize,
    zone: ZoneVertices,
    j: Place,
    behind: u8,
    out: &mut [u8],
) -> usize
    ensures { world state.new result out.new ≡ made_all (world state.old count out.old) (across zone.entry.vertices.now (hall_enter (arrangement_of state.old zone.entry.vertices.now) j.index behind)) }
{
    make_way(
        state,
        count,
        zone,
        |line|
            ensures { result ≡ min (lower_of behind line.now) (length line.now) }
        { lower_than(line, behind) },
        0,
        j,
        out,
    )
}

// The robots go to their goals' places.
#[tactic(auto, using(motion::specs::Across::arrangement_length, crate::specs::Ends::length_first))]
pub fn end<const N: usize, const M: usize, const P: usize, const Q: usize>(
    state: &mut State<N, M>,
    count: usize,
    zone: ZoneVertices,
    goals: &State<P, Q>,
    out: &mut [u8],
) -> usize
    ensures { world state.new result out.new ≡ made_all (world state.old count out.old) (across zone.entry.vertices.now (hall_end (arrangement_of state.old zone.entry.vertices.now) (arrangement_of goals.now zone.entry.vertices.now))) }
{
    let mut line = [0u8; 128];
    let mut places = [0u8; 128];
    let n = line_up(state, zone, &mut line, &mut places);
    let mut others = [0u8; 128];
    let mut targets = [0u8; 128];
    let m = line_up(goals, zone, &mut others, &mut targets);
    let k = n.min(m);
    settle(
        state,
        count,
        zone.vertices,
        &line[..k],
        &places[..k],
        &targets[..k],
        out,
    )
}
