// The goals of a zone tested by the list of its robots.
ghost use Rattle.std.specs.Prelude.{◌≡◌};
ghost use Rattle.spec.specs.Ring.{turned};
ghost use Rattle.numbering.specs.Kind.{number_of};
ghost use Rattle.orders.specs.Orders.{end_test};

use comparing::same_cells;
use numbering::ZoneKind;
use rosters::finding::index_in;
use rosters::members::same_members;

// Are the goals' robots those of a ring, turned: read from the ring's first on, and then from their own first on?
fn is_turned(list: &[u8], goal: &[u8]) -> bool
    ensures { result ≡ turned list.now goal.now }
{
    if list.len() != goal.len() {
        return false;
    }
    let Some(first) = list.first() else {
        return goal.is_empty();
    };
    let Some(t) = index_in(goal, *first) else {
        return false;
    };
    let (front, back) = list.split_at(goal.len() - t);
    same_cells(front, &goal[t..]) && same_cells(back, &goal[..t])
}

// Are the goals, whose robots in order are `goal`, in the configuration?
pub fn can_end(kind: ZoneKind, list: &[u8], size: usize, goal: &[u8]) -> bool
    ensures { result ≡ end_test (number_of kind) size list.now goal.now }
{
    if list.len() == size {
        return same_cells(list, goal);
    }
    match kind {
        ZoneKind::Clique => same_members(list, goal),
        ZoneKind::Ring => is_turned(list, goal),
        _ => same_cells(list, goal),
    }
}
