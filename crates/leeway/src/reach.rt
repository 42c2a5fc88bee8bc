// What can be reached in a zone of a kind.
ghost use Rattle.std.specs.Prelude.{◌≡◌, ◌≢◌, ◌≤◌, ◌<◌, length, eqb, MatchOption};
ghost use Rattle.numbering.specs.Kind.{number_of};
ghost use Rattle.spec.specs.Outcome.{◌and◌};
ghost use Rattle.spec.specs.Arrangement.{full, last_free};
ghost use Rattle.spec.specs.Ring.{ring_behind};
ghost use Rattle.spec.specs.State.{arrangement_of};
ghost use Rattle.spec.specs.ZoneKind.{behind_of, can_leave, can_enter, can_end};

use clique::FollowList;
use motion::State;
use numbering::{Robot, ZoneKind, ZoneVertices};

// A neighbour as a step names it: 255 for none.
fn named(nearest: Option<Robot>) -> u8
    ensures { MatchOption nearest (result ≡ 255) (λ r. result ≡ r.0) }
{
    nearest.map_or(255, |r| r.0)
}

// A place and its zone stay two values, here and below: each is used once, and apart.
// "in a ring, the first cart met going backward from to"; none if the ring is empty.
fn behind_round<const N: usize, const M: usize>(
    state: &State<N, M>,
    zone: &[u8],
    j: usize,
) -> Option<Robot>
    requires { j < length zone.now }
    ensures { MatchOption result (ring_behind (arrangement_of state.now zone.now) j ≡ 255)
        (λ r. (ring_behind (arrangement_of state.now zone.now) j ≡ r.0) × (r.0 ≢ 255)) }
{
    if let Some(r) = reaching::reach::behind(state, zone, 0, j) {
        return Some(r);
    }
    reaching::reach::behind(state, zone, j + 1, zone.len())
}

// The neighbour that a step to place j names: its behind, from the lent table of the robots by vertex.
pub fn behind_of<const N: usize, const M: usize>(
    kind: ZoneKind,
    state: &State<N, M>,
    zone: &[u8],
    j: usize,
) -> u8
    requires { j < length zone.now }
    ensures { result ≡ behind_of (number_of kind) (arrangement_of state.now zone.now) j }
{
    match kind {
        ZoneKind::Clique => 255,
        ZoneKind::Ring => named(behind_round(state, zone, j)),
        _ => named(reaching::reach::behind(state, zone, 0, j)),
    }
}

// "'Full' means a cart on every point."
pub fn is_full<const N: usize, const M: usize>(state: &State<N, M>, zone: &[u8]) -> bool
    ensures { result ≡ full (arrangement_of state.now zone.now) }
{
    clique::is_full(state, zone)
}

// Does whoever enters fill a clique, so that the step has a follow list?
pub fn fills<const N: usize, const M: usize>(
    kind: ZoneKind,
    state: &State<N, M>,
    zone: &[u8],
) -> bool
    ensures { result ≡ (eqb (number_of kind) 3 and last_free (arrangement_of state.now zone.now)) }
{
    let is_clique = kind == ZoneKind::Clique;
    if is_clique {
        return vacating::last_free(state, zone);
    }
    false
}

// "Leaving needs a reachable arrangement with the cart at from": robot r at place j.
pub fn can_leave<const N: usize, const M: usize>(
    kind: ZoneKind,
    state: &State<N, M>,
    zone: &[u8],
    r: Robot,
    j: usize,
) -> bool
    ensures { result ≡ can_leave (number_of kind) (arrangement_of state.now zone.now) r.0 j }
{
    match kind {
        ZoneKind::Clique => vacating::can_leave(state, zone, r, j),
        ZoneKind::Ring => turned::can_leave(state, zone, r, j),
        _ => reaching::reach::can_leave(state, zone, r, j),
    }
}

// "Entering needs a reachable one with to empty and the named neighbour": robot r at place j of a zone that is not full.
pub fn can_enter<const N: usize, const M: usize>(
    kind: ZoneKind,
    state: &State<N, M>,
    zone: ZoneVertices,
    r: Robot,
    j: usize,
    behind: u8,
    list: FollowList,
) -> bool
    ensures { result ≡ can_enter (number_of kind) (arrangement_of state.now zone.entry.vertices.now) r.0 j behind list.entry.names.now }
{
    match kind {
        ZoneKind::Clique => clique::can_enter(state, zone, r, j, behind, list),
        ZoneKind::Ring => turned::can_enter(state, zone.vertices, j, behind),
        _ => reaching::reach::can_enter(state, zone.vertices, j, behind),
    }
}

// Is the goals' arrangement in the configuration?
pub fn can_end<const N: usize, const M: usize, const P: usize, const Q: usize>(
    kind: ZoneKind,
    state: &State<N, M>,
    zone: ZoneVertices,
    goals: &State<P, Q>,
) -> bool
    ensures { result ≡ can_end (number_of kind) (arrangement_of state.now zone.entry.vertices.now) (arrangement_of goals.now zone.entry.vertices.now) }
{
    match kind {
        ZoneKind::Clique => clique::can_end(state, zone, goals),
        ZoneKind::Ring => turned::can_end(state, zone.vertices, goals),
        _ => reaching::reach::can_end(state, zone.vertices, goals),
    }
}
