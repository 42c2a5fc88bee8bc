// The length of a step's follow list.
ghost use Rattle.std.specs.Prelude.{◌≡◌, ◌<◌, get_or};
ghost use Rattle.spec.specs.State.{arrangement_of};
ghost use Rattle.theory.specs.Zones.Crossing.{extra_of};
ghost use Rattle.numbering.specs.Kind.{number_of};
ghost use Rattle.walking.specs.OnMap.{ZoneOn, kind_on, vertices_on};

use layout::MapTables;
use motion::State;
use numbering::{Vertex, ZoneKind};

// How many bytes the follow list of a step into a zone has.
fn list_length<const N: usize, const M: usize>(
    kind: ZoneKind,
    state: &State<N, M>,
    zone: &[u8],
) -> usize
    ensures { result ≡ extra_of (number_of kind) (arrangement_of state.now zone.now) }
{
    if leeway::fills(kind, state, zone) {
        return zone.len();
    }
    0
}

// How many bytes the follow list of a step to vertex v has.
pub fn list_length_at<const N: usize, const M: usize, const L: usize>(
    map: &MapTables<L>,
    state: &State<N, M>,
    v: Vertex,
) -> usize
    requires { (v.0 < 128) × ZoneOn map.now (get_or map.now.zone v.0 0) }
    ensures { result ≡ extra_of (kind_on map.now v.0) (arrangement_of state.now (vertices_on map.now v.0)) }
{
    let z = map.zone_of(v);
    let kind = map.kind_of(z);
    list_length(kind, state, map.listed_of(z))
}
