// The tests of a step on the lists: every check in document 01's order, and no move is made.
ghost use Rattle.std.specs.Prelude.{◌≡◌, ◌+◌, ◌≤◌, ◌<◌, length};
ghost use Rattle.numbering.specs.Kind.{number_of};
ghost use Rattle.orders.specs.Orders.{leave_test};
ghost use Rattle.walking.specs.OnMap.{kind_on, place_on};
ghost use Rattle.exits.specs.Leaving.{LeaveFound};
ghost use Rattle.testing.specs.Steps.{extra_on, EntryTested};
ghost use Rattle.testing.specs.OnMap.{size_on, count_on, list_on, FitsOn, ReadyOn, StepTestedOn};

use crate::tests::{are_numbered, is_crossing};
use crate::{Lists, Step, StepFault};
use configurations::entering::{can_fill, entry_at};
use exits::leaving::leave_index;
use layout::MapTables;
use numbering::{Robot, Vertex, ZoneKind};
use rosters::Spot;
use wire::FiledPayload;

// An entry that passed its tests: the index at which the robot comes into the list, 0 where it fills a clique, and how many bytes the follow list has.
#[derive(Clone, Copy)]
struct Entry {
    into: usize,
    list: usize,
}

// Where robot r, that is to leave its zone at vertex u, stands in the zone's list, if it can.
fn leave_at<const L: usize>(
    map: &MapTables<L>,
    lists: &Lists<L>,
    r: Robot,
    u: Vertex,
) -> Option<usize>
    requires { FitsOn map.now lists.now u.0 }
    ensures { LeaveFound (leave_test (kind_on map.now u.0) (size_on map.now u.0) (list_on map.now lists.now u.0) r.0 (place_on map.now u.0)) r.0 (count_on map.now lists.now u.0) (list_on map.now lists.now u.0) result }
{
    let at = lists.spot(map, u);
    let cells: &[u8] = &lists.cells;
    leave_index(at, &cells[at.first..], r)
}

// How many bytes the follow list has of a step into a zone of `size` places with n robots.
fn list_length(kind: ZoneKind, n: usize, size: usize) -> usize
    requires { n < size }
    ensures { result ≡ extra_on (number_of kind) size n }
{
    if kind == ZoneKind::Clique && n + 1 == size {
        return size;
    }
    0
}

// Robot r's entry at a spot of a zone with these robots inside: "full target, follow list present, 39".
fn test_entry(
    p: FiledPayload,
    o: usize,
    at: Spot,
    inside: &[u8],
    r: Robot,
    behind: u8,
) -> Result<Entry, StepFault>
    requires { (o + 4 ≤ p.len) × (length inside.now ≡ at.count) × (at.size ≤ 128) }
    ensures { EntryTested p.entry.file.now p.entry.len o (number_of at.kind) at.count inside.now at.size r.0 at.place behind result }
{
    if at.count == at.size {
        return Err(StepFault::Enter);
    }
    let list = list_length(at.kind, at.count, at.size);
    let short = p.len - o - 4 < list;
    if short {
        return Err(StepFault::Short);
    }
    if list == 0 {
        let into = entry_at(at.kind, inside, at.size, at.place, behind).ok_or(StepFault::Enter)?;
        return Ok(Entry { into, list });
    }
    if can_fill(p.file, o + 4, at, inside, r, behind) {
        return Ok(Entry { into: 0, list });
    }
    Err(StepFault::Enter)
}

// Robot r's entry at vertex v.
fn test_entry_at<const L: usize>(
    p: FiledPayload,
    o: usize,
    map: &MapTables<L>,
    lists: &Lists<L>,
    r: Robot,
    v: Vertex,
    behind: u8,
) -> Result<Entry, StepFault>
    requires o_in_bounds { o + 4 ≤ p.len }
    requires fits { FitsOn map.now lists.now v.0 }
    ensures { EntryTested p.entry.file.now p.entry.len o (kind_on map.now v.0) (count_on map.now lists.now v.0) (list_on map.now lists.now v.0) (size_on map.now v.0) r.0 (place_on map.now v.0) behind result }
{
    let at = lists.spot(map, v);
    let cells: &[u8] = &lists.cells;
    let inside = &cells[at.first..][..at.count];
    test_entry(p, o, at, inside, r, behind)
}

// The tests of the step at offset o of the payload, for k robots.
pub fn test_step<const L: usize>(
    p: FiledPayload,
    o: usize,
    map: &MapTables<L>,
    rows: &[[u64; 2]; 128],
    k: usize,
    lists: &Lists<L>,
) -> Result<Step, StepFault>
    requires o_in_bounds { o ≤ p.len }
    requires ready { ReadyOn map.now k rows.now lists.now }
    ensures { StepTestedOn p.entry.file.now p.entry.len o map.now k rows.now lists.now result }
{
    if p.len - o < 4 {
        return Err(StepFault::Short);
    }
    let bytes = wire::payload_four(p.file, o);
    let r = Robot(bytes.first);
    let u = Vertex(bytes.second);
    let v = Vertex(bytes.third);
    if !are_numbered(map, k, r, u, v) {
        return Err(StepFault::Number);
    }
    if !is_crossing(map, rows, u, v) {
        return Err(StepFault::Edge);
    }
    let stood = leave_at(map, lists, r, u);
    let out = stood.ok_or(StepFault::Leave)?;
    let Entry { into, list } = test_entry_at(p, o, map, lists, r, v, bytes.fourth)?;
    Ok(Step {
        bytes,
        out,
        into,
        list,
    })
}
