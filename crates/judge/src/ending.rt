// The lists as a state has them, and the goals tested by the lists: "After the last step, zones in number order are brought to the goals."
ghost use Rattle.std.specs.Prelude.{◌≡◌, List, ℕ, ◌<◌, length, get_or, not};
ghost use Rattle.spec.specs.Layout.{Map};
ghost use Rattle.spec.specs.Arrangement.{order};
ghost use Rattle.spec.specs.State as meaning;
ghost use Rattle.spec.specs.Run.{goals_from};
ghost use Rattle.spec.specs.Terms.{zone_count};
ghost use Rattle.theory.specs.Maps.Consistent.{Consistent};
ghost use Rattle.layout.specs.Lists.{part_of};
ghost use Rattle.orders.specs.Orders.{end_test};
ghost use Rattle.walking.specs.Given.{Given};
ghost use Rattle.walking.specs.OnMap.{ZoneOn};
ghost use Rattle.judge.specs.Endings.{off_zone};
ghost use Rattle.testing.specs.Held.{list_in};
ghost use Rattle.testing.specs.OnMap.{HasListOn, HeldOn};
ghost use Rattle.judge.specs.OnMap.{ListedOn};

use exits::goals::can_end;
use layout::MapTables;
use lineup::line::line_up;
use motion::State;
use numbering::{Zone, ZoneVertices};
use testing::Lists;

// Writes zone z's list: its robots in order, and their number.
// That the map has the zone stays a clause, here and below: it is of the two together, and a zone's number is read of no map.
fn fill_zone<const L: usize>(
    state: &State<128, 64>,
    map: &MapTables<L>,
    z: Zone,
    lists: &mut Lists<L>,
)
    requires { ZoneOn map.now z.0 × (length lists.old.cells ≡ length map.now.listed) }
    ensures { ListedOn map.now lists.old z.0 (order (meaning.arrangement_of state.now (part_of map.now z.0))) lists.new }
{
    let a = map.first_of(z);
    let mut robots = [0u8; 128];
    let mut places = [0u8; 128];
    let zone = ZoneVertices {
        vertices: map.listed_of(z),
    };
    let n = line_up(state, zone, &mut robots, &mut places);
    let cells: &mut [u8] = &mut lists.cells;
    cells[a..a + n].copy_from_slice(&robots[..n]);
    lists.counts[z.0 as usize] = n as u8;
}

// Every zone's list.
pub fn lists_of<const L: usize>(state: &State<128, 64>, map: &MapTables<L>) -> Lists<L>
    requires { (z : ℕ) → z < map.now.zones → ZoneOn map.now z }
    ensures { (length result.cells ≡ length map.now.listed) × (length result.counts ≡ 64) × ((m : Map) (n k : ℕ) (kind zone place : List ℕ) (rows : List (List ℕ)) → Given m n k kind map.now.first map.now.size map.now.listed zone place rows → zone_count m ≡ map.now.zones → Consistent m k state.now → HeldOn m map.now result state.now) }
{
    let _room = map.room();
    let mut lists = Lists {
        cells: [0; L],
        counts: [0; 64],
    };
    for z in 0..map.zones() {
        fill_zone(state, map, Zone(z as u8), &mut lists);
    }
    lists
}

// Can zone z be brought to its goals, by its list?
fn ends_zone<const L: usize, const C: usize>(
    map: &MapTables<L>,
    z: Zone,
    lists: &Lists<C>,
    goals: &State<128, 64>,
) -> bool
    requires { ZoneOn map.now z.0 × HasListOn map.now lists.now z.0 }
    ensures { result ≡ end_test (get_or map.now.kind z.0 0) (get_or map.now.size z.0 0) (list_in map.now.first lists.now.counts lists.now.cells z.0) (order (meaning.arrangement_of goals.now (part_of map.now z.0))) }
{
    let count = lists.counts[z.0 as usize] as usize;
    let cells: &[u8] = &lists.cells;
    let list = &cells[map.first_of(z)..][..count];
    let mut robots = [0u8; 128];
    let mut places = [0u8; 128];
    let zone = ZoneVertices {
        vertices: map.listed_of(z),
    };
    let n = line_up(goals, zone, &mut robots, &mut places);
    can_end(map.kind_of(z), list, map.size_of(z), &robots[..n])
}

// The lowest zone that can't be brought to its goals. There may be more or fewer cells than the map's listing has places.
pub fn off_zone<const L: usize, const C: usize>(
    map: &MapTables<L>,
    lists: &Lists<C>,
    goals: &State<128, 64>,
) -> Option<usize>
    requires { (z : ℕ) → z < map.now.zones → ZoneOn map.now z × HasListOn map.now lists.now z }
    ensures { (m : Map) (n k : ℕ) (zone place : List ℕ) (rows : List (List ℕ)) → Given m n k map.now.kind map.now.first map.now.size map.now.listed zone place rows → zone_count m ≡ map.now.zones → (s : meaning.State) → Consistent m k s → HeldOn m map.now lists.now s → off_zone result ≡ goals_from 0 m.zones s goals.now }
{
    (0..map.zones()).find(
        |z|
            requires { ZoneOn map.now z.now × HasListOn map.now lists.now z.now }
            ensures { result ≡ not (end_test (get_or map.entry.now.kind z.now 0) (get_or map.entry.now.size z.now 0) (list_in map.entry.now.first lists.entry.now.counts lists.entry.now.cells z.now) (order (meaning.arrangement_of goals.entry.now (part_of map.entry.now z.now)))) }
        { !ends_zone(map, Zone(*z as u8), lists, goals) },
    )
}
