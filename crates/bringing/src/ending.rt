// The goals, reached zone by zone: "After the last step, zones in number order are brought to the goals."
ghost use Rattle.std.specs.Prelude.{◌≡◌, true, List, ℕ, length, get_or};
ghost use Rattle.spec.specs.Outcome.{ok};
ghost use Rattle.spec.specs.Layout.{Map};
ghost use Rattle.spec.specs.State.{arrangement_of, across};
ghost use Rattle.spec.specs.ZoneKind.{can_end};
ghost use Rattle.spec.specs.Run.{goals_from, endings_from};
ghost use Rattle.spec.specs.Terms.{zone_count};
ghost use Rattle.theory.specs.Maps.Consistent.{Consistent};
ghost use Rattle.theory.specs.Zones.Crossing.{Proper};
ghost use Rattle.motion.specs.World.{world, made_all};
ghost use Rattle.layout.specs.Lists.{part_of};
ghost use Rattle.walking.specs.Kinds.{end_moves};
ghost use Rattle.walking.specs.Given.{Given};
ghost use Rattle.walking.specs.OnMap.{ZoneOn, BringingOn};

use layout::MapTables;
use motion::{ListedVertices, State};
use numbering::Zone;

// The moves that bring zone z to its goals, which can be reached.
// That the map has the zone stays a clause: it is of the two together, and a zone's number is read of no map.
fn end_zone<const M: usize, const P: usize, const Q: usize, const L: usize>(
    state: &mut State<128, M>,
    count: usize,
    map: &MapTables<L>,
    z: Zone,
    goals: &State<P, Q>,
    out: &mut [u8],
) -> usize
    requires has_zone { ZoneOn map.now z.0 }
    requires z_value { can_end (get_or map.now.kind z.0 0) (arrangement_of state.old (part_of map.now z.0)) (arrangement_of goals.now (part_of map.now z.0)) ≡ true }
    requires proper { Proper (arrangement_of state.old (part_of map.now z.0)) }
    ensures { world state.new result out.new ≡ made_all (world state.old count out.old) (across (part_of map.now z.0) (end_moves (get_or map.now.kind z.0 0) (arrangement_of state.old (part_of map.now z.0)) (arrangement_of goals.now (part_of map.now z.0)))) }
{
    let kind = map.kind_of(z);
    let zone = ListedVertices {
        vertices: map.listed_of(z),
    };
    zones::bring_to_goals(kind, state, count, zone, goals, out)
}

// The moves that bring every zone to its goals, which can be reached.
pub fn end_zones<const M: usize, const P: usize, const Q: usize, const L: usize>(
    state: &mut State<128, M>,
    count: usize,
    map: &MapTables<L>,
    goals: &State<P, Q>,
    out: &mut [u8],
) -> usize
    requires { BringingOn map.now state.old goals.now }
    ensures { (m : Map) (n k : ℕ) (zone place : List ℕ) (rows : List (List ℕ)) → Given m n k map.now.kind map.now.first map.now.size map.now.listed zone place rows → zone_count m ≡ map.now.zones → Consistent m k state.old → goals_from 0 m.zones state.old goals.now ≡ ok tt → world state.new result out.new ≡ made_all (world state.old count out.old) (endings_from m.zones state.old goals.now) }
{
    let mut made = count;
    for z in 0..map.zones() {
        made = end_zone(state, made, map, Zone(z as u8), goals, out);
    }
    made
}
