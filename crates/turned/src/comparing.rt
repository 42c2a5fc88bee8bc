// Whether goals are in a ring's configuration: the order of the robots up to turning, or if full the arrangement.
ghost use Rattle.std.specs.Prelude.{◌≡◌, ◌≤◌, length, eqb, not};
ghost use Rattle.spec.specs.Outcome.{same_list};
ghost use Rattle.spec.specs.Arrangement.{order};
ghost use Rattle.spec.specs.Ring.{frame, turned};
ghost use Rattle.spec.specs.State.{arrangement_of, robot_on};

use cells::place_of;
use circle::reading::is_vacant;
use motion::State;
use numbering::{Robot, Vertex};

// Do the same robots stand on the same places.
pub fn same_cells<const N: usize, const M: usize, const P: usize, const Q: usize>(
    state: &State<N, M>,
    goals: &State<P, Q>,
    zone: &[u8],
) -> bool
    ensures { result ≡ same_list (arrangement_of state.now zone.now) (arrangement_of goals.now zone.now) }
{
    zone.iter().all(
        |v|
            ensures { result ≡ eqb (robot_on state.entry.now v.now) (robot_on goals.entry.now v.now) }
        { state.robot_on(Vertex(*v)) == goals.robot_on(Vertex(*v)) },
    )
}

// Is the order of the robots that of the goals read from place q on.
pub fn same_round<const N: usize, const M: usize, const P: usize, const Q: usize>(
    state: &State<N, M>,
    goals: &State<P, Q>,
    zone: &[u8],
    q: usize,
) -> bool
    requires { q ≤ length zone.now }
    ensures { result ≡ same_list (order (arrangement_of state.now zone.now)) (order (frame q (arrangement_of goals.now zone.now))) }
{
    let round = zone[q..].iter().chain(&zone[..q]);
    let robots = zone
        .iter()
        .map(
            |v|
                ensures { result.0 ≡ robot_on state.entry.now v.now }
            { state.robot_on(Vertex(*v)) },
        )
        .filter(
            |r|
                ensures { result ≡ not (eqb r.now.0 255) }
            { *r != Robot(255) },
        );
    robots.eq(
        round
            .map(
                |v|
                    ensures { result.0 ≡ robot_on goals.entry.now v.now }
                { goals.robot_on(Vertex(*v)) },
            )
            .filter(
                |r|
                    ensures { result ≡ not (eqb r.now.0 255) }
                { *r != Robot(255) },
            ),
    )
}

// Is the order of the robots that of the goals, turned: read from the place of the first robot on.
pub fn same_turned<const N: usize, const M: usize, const P: usize, const Q: usize>(
    state: &State<N, M>,
    goals: &State<P, Q>,
    zone: &[u8],
) -> bool
    ensures { result ≡ turned (order (arrangement_of state.now zone.now)) (order (arrangement_of goals.now zone.now)) }
{
    let Some(r) = zone
        .iter()
        .map(
            |v|
                ensures { result.0 ≡ robot_on state.entry.now v.now }
            { state.robot_on(Vertex(*v)) },
        )
        .find(
            |r|
                ensures { result ≡ not (eqb r.now.0 255) }
            { *r != Robot(255) },
        )
    else {
        return is_vacant(goals, zone);
    };
    let q = place_of(goals, zone, r).unwrap_or(zone.len());
    same_round(state, goals, zone, q)
}
