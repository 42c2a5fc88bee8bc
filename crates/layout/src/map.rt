// The whole map.
ghost use Rattle.std.specs.Prelude.{◌≡◌, Ok};
ghost use Rattle.spec.specs.Layout.{Map, kinds_from, map_of};
ghost use Rattle.zoning.specs.Fault.{answered};
ghost use Rattle.zoning.specs.Bytes.{bytes};
ghost use Rattle.zoning.specs.Zones.{zones_in};
ghost use Rattle.zoning.specs.Found.{heads_of, ZonesAre, ZonesHeld};
ghost use Rattle.layout.specs.Kinds.{Ready};
ghost use Rattle.layout.specs.Map.{LayoutIs, MapIs};
ghost use Rattle.layout.specs.Rest.{RestIs};

use crate::MapTables;
use adjacency::Rows;
use edging::edges::edges_of;
use kinds::{ListedZone, of_kind};
use numbering::Zone;
use zoning::heads::read_counts;
use zoning::reading::{covered, read_zones};
use zoning::{Counts, MapFault, PayloadBytes, Zones};

// The lowest zone that is not of its kind.
fn test_kinds(rows: &Rows, zones: &Zones, counts: Counts) -> Result<(), MapFault>
    requires { ZonesHeld (heads_of zones.now) zones.now.listed zones.now.zone zones.now.place counts.zones }
    ensures { (m : Map) → Ready rows.now m (heads_of zones.now) zones.now.listed zones.now.zone counts.zones → kinds_from m 0 (zones_in (heads_of zones.now) zones.now.listed counts.zones) ≡ answered (λ _. tt) result }
{
    for i in 0..counts.zones {
        let z = i as usize;
        let first = zones.first[z] as usize;
        let zone = ListedZone {
            number: Zone(i),
            kind: zones.kind[z],
            vertices: &zones.listed[first..first + zones.size[z] as usize],
            zone_of: &zones.zone,
        };
        if !of_kind(rows, &zone) {
            return Err(MapFault::Kind(z));
        }
    }
    Ok(())
}

// Reads the edges behind the zones into the rows, and tests the zones' kinds.
fn read_rest(
    payload: &PayloadBytes,
    counts: Counts,
    zones: &Zones,
    rows: &mut Rows,
) -> Result<(), MapFault>
    requires { ZonesAre (bytes payload.now) counts.vertices counts.zones (Ok zones.now) }
    ensures { RestIs payload.now.file.now payload.now.len counts.vertices zones.now counts.zones rows.new result }
{
    let n = counts.vertices as usize;
    rows.clear();
    edges_of(payload, n, covered(&zones.zone, n), zones.next, rows)?;
    test_kinds(rows, zones, counts)
}

// Reads a map from its payload; where it is refused, the rows are of no use.
fn read_layout(payload: &PayloadBytes, rows: &mut Rows) -> Result<MapTables<128>, MapFault>
    ensures { LayoutIs (map_of (bytes payload.now)) result rows.new }
{
    let counts = read_counts(payload)?;
    let read = read_zones(payload, counts)?;
    read_rest(payload, counts, &read, rows)?;
    let Zones {
        kind,
        first,
        size,
        listed,
        zone,
        place,
        ..
    } = read;
    Ok(MapTables {
        vertices: counts.vertices,
        zones: counts.zones,
        kind,
        first,
        size,
        listed,
        zone,
        place,
    })
}

// Reads a map from its payload: the map, with its edges in the rows; or why it is refused, with no edge in the rows.
// The rows are the caller's. In the map's tables, as tried, they are copied at each return: a map then takes 0.3 to 0.5 µs more to read.
pub fn read_map(payload: &PayloadBytes, rows: &mut Rows) -> Result<MapTables<128>, MapFault>
    ensures { MapIs (map_of (bytes payload.now)) result rows.new }
{
    let read = read_layout(payload, rows);
    if read.is_err() {
        rows.clear();
    }
    read
}
