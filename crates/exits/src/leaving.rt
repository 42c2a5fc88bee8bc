// Who can leave a zone, by the list of its robots, the first of a part.
ghost use Rattle.std.specs.Prelude.{◌≡◌, true, false, ◌≤◌, ◌<◌, length, take};
ghost use Rattle.spec.specs.ZoneKind.{by_kind};
ghost use Rattle.numbering.specs.Kind.{number_of};
ghost use Rattle.orders.specs.Orders.{leave_test};
ghost use Rattle.exits.specs.Leaving.{LeaveFound, lets_out, goes};

use numbering::{Robot, ZoneKind};
use reaching::reach::has_room;
use rosters::Spot;
use rosters::finding::index_in;

// Is this the kind of a clique or a ring, which pins its robots to their places only where it is full?
fn is_pinned(kind: ZoneKind) -> bool
    ensures { result ≡ by_kind (number_of kind) true true false }
{
    matches!(kind, ZoneKind::Clique | ZoneKind::Ring)
}

// Does a clique or ring of `size` places with n robots let one of them, r, out at the place where x is listed? A full one only where x is r.
fn lets_out(n: usize, size: usize, x: Robot, r: Robot) -> bool
    ensures { result ≡ lets_out n size x.0 r.0 }
{
    n != size || x == r
}

// Can robot r, at index t of the list, leave at this spot, where x is listed? Both answers are worked out, and one is chosen.
fn can_go(at: Spot, x: Robot, r: Robot, t: usize) -> bool
    requires { t < at.count }
    ensures { result ≡ goes (number_of at.kind) at.count at.size x.0 r.0 t at.place }
{
    let room = has_room(at.size, at.place, t, at.count - t - 1);
    let free = lets_out(at.count, at.size, x, r);
    if is_pinned(at.kind) { free } else { room }
}

// "Leaving needs a reachable arrangement with the cart at from": where robot r, that is to leave at this spot, stands in the list, if it can leave.
// The part is not cut to the list: the place's byte is read even past the list's end, so that nothing branches on it.
pub fn leave_index(at: Spot, part: &[u8], r: Robot) -> Option<usize>
    requires { at.size ≤ length part.now }
    ensures { LeaveFound (leave_test (number_of at.kind) at.size (take at.count part.now) r.0 at.place) r.0 at.count (take at.count part.now) result }
{
    let t = index_in(&part[..at.count], r.0)?;
    let x = Robot(part[at.place]);
    can_go(at, x, r, t).then_some(t)
}
