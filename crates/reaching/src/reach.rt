// What a hall can reach: its robots keep their order, so that what counts is who stands below and above.
ghost use Rattle.std.specs.Prelude.{◌≡◌, ◌≢◌, take, drop, MatchOption};
ghost use Rattle.spec.specs.Arrangement.{last_named};
ghost use Rattle.spec.specs.State.{arrangement_of};
ghost use Rattle.spec.specs.Hall.{room, hall_can_leave, hall_can_enter, hall_can_end};
ghost use Rattle.reaching.specs.Row.{Counted, row_of};

use crate::row::Row;
use motion::State;
use numbering::{Robot, Vertex};

// How many robots stand in a zone, and how many of them below the named one; all, where it is not among them.
#[derive(Clone, Copy)]
struct Count {
    lower: usize,
    all: usize,
}

fn count_robots<const N: usize, const M: usize>(
    state: &State<N, M>,
    zone: &[u8],
    named: Robot,
) -> Count
    ensures { Counted (row_of state.now zone.now) named.0 result.lower result.all }
{
    let mut lower: usize = 0;
    let mut all: usize = 0;
    for r in (Row { state, zone }) {
        if lower == all && r != named {
            lower += 1;
        }
        all += 1;
    }
    Count { lower, all }
}

// Is there room below place j for t robots and above it for u, of `size` places?
pub fn has_room(size: usize, j: usize, t: usize, u: usize) -> bool
    ensures { result ≡ room size j t u }
{
    t <= j && u < size.saturating_sub(j)
}

// Can robot r leave at place j?
pub fn can_leave<const N: usize, const M: usize>(
    state: &State<N, M>,
    zone: &[u8],
    r: Robot,
    j: usize,
) -> bool
    ensures { result ≡ hall_can_leave (arrangement_of state.now zone.now) r.0 j }
{
    let Count { lower, all } = count_robots(state, zone, r);
    lower < all && has_room(zone.len(), j, lower, all - lower - 1)
}

// Can a robot enter at place j with the named one behind it, 255 for none?
pub fn can_enter<const N: usize, const M: usize>(
    state: &State<N, M>,
    zone: &[u8],
    j: usize,
    behind: u8,
) -> bool
    ensures { result ≡ hall_can_enter (arrangement_of state.now zone.now) j behind }
{
    let Count { lower, all } = count_robots(state, zone, Robot(behind));
    if behind == 255 {
        return has_room(zone.len(), j, 0, all);
    }
    lower < all && has_room(zone.len(), j, lower + 1, all - lower - 1)
}

// Are the goals in the configuration: the same robots in the same order?
pub fn can_end<const N: usize, const M: usize, const P: usize, const Q: usize>(
    state: &State<N, M>,
    zone: &[u8],
    goals: &State<P, Q>,
) -> bool
    ensures { result ≡ hall_can_end (arrangement_of state.now zone.now) (arrangement_of goals.now zone.now) }
{
    Row { state, zone }.eq(Row { state: goals, zone })
}

// The nearest robot at a place lower than j and not lower than `from`.
pub fn behind<const N: usize, const M: usize>(
    state: &State<N, M>,
    zone: &[u8],
    from: usize,
    j: usize,
) -> Option<Robot>
    ensures { MatchOption result (last_named (drop from (take j (arrangement_of state.now zone.now))) ≡ 255)
        (λ r. (last_named (drop from (take j (arrangement_of state.now zone.now))) ≡ r.0) × (r.0 ≢ 255)) }
{
    for k in (from..j.min(zone.len())).rev() {
        let r = state.robot_on(Vertex(zone[k]));
        if r != Robot(255) {
            return Some(r);
        }
    }
    None
}
