// The moves of a clique towards a given arrangement. The arrangement is kept in lent cells: 0 for nothing, r + 1 for robot r.
ghost use Rattle.std.specs.Prelude.{◌≡◌, ◌≤◌, length};
ghost use Rattle.spec.specs.Clique.{lowest_off, clique_to};
ghost use Rattle.spec.specs.State.{across};
ghost use Rattle.spec.specs.Terms.{Distinct};
ghost use Rattle.motion.specs.World.{world, made_all};
ghost use Rattle.arranging.specs.Toward.{robot_off};

use crate::opening::open_target;
use cells::{cell_of, go};
use motion::State;
use numbering::Robot;
use tabling::placing::first_empty;
use tabling::table::Table;

// The robot of cell y where it is not what stands there, x; 255, which is higher than all, where it is, or where there is none.
// No Option: 255 is the format's word for nobody, and the least of an Option's values would be None, and no robot.
fn robot_off(x: u8, y: u8) -> u8
    ensures { result ≡ robot_off x y }
{
    if x == y { 255 } else { y.wrapping_sub(1) }
}

// The cell of the lowest-numbered robot that is off its target; 0 where there is none. A fold over a `zip` was tried: twice as slow.
fn lowest_off(cells: &[u8], goal: &[u8]) -> u8
    ensures { result ≡ lowest_off cells.now goal.now }
{
    let mut lowest = 255;
    for k in (0..cells.len().min(goal.len())).rev() {
        lowest = robot_off(cells[k], goal[k]).min(lowest);
    }
    cell_of(Robot(lowest))
}

// At most `most` moves towards an arrangement of as many places, where no robot stands twice:
// "while a cart is off target, if some such cart's target is empty, the one whose target is listed earliest moves there;
// otherwise the lowest-numbered such cart moves to the earliest listed empty point". A target opens only where a robot left, so the next one is looked for from there,
// and past the place that was taken. The robots' places are kept in a table.
pub fn go_toward<const N: usize, const M: usize>(
    state: &mut State<N, M>,
    count: usize,
    zone: &[u8],
    cells: &mut [u8],
    goal: &[u8],
    most: usize,
    out: &mut [u8],
) -> usize
    requires { (length cells.old ≤ 128) × (length goal.now ≡ length cells.old) × Distinct cells.old }
    ensures { world state.new result out.new ≡ made_all (world state.old count out.old) (across zone.now (clique_to most cells.old goal.now)) }
{
    let mut table = Table::of(cells);
    let mut count = count;
    let mut from = 0;
    for _ in 0..most {
        if let Some(q) = open_target(cells, goal, from) {
            let x = goal[q];
            let i = table.go(x, q);
            from = i.min(q + 1);
            count = go(state, count, zone, cells, x, i, q, out);
        } else {
            let x = lowest_off(cells, goal);
            if x == 0 {
                return count;
            }
            let j = first_empty(cells).unwrap_or(cells.len());
            from = table.go(x, j);
            count = go(state, count, zone, cells, x, from, j, out);
        }
    }
    count
}
