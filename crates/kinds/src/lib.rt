// Whether a zone is of its kind (document 01, "Zones and configurations"), tested on the rows of the adjacency.
#![tactic(auto)]

ghost use Rattle.std.specs.Prelude.{◌≡◌, ◌≤◌, ◌<◌, length, drop};
ghost use Rattle.numbering.specs.Kind.{number_of};
ghost use Rattle.std.specs.List.{list_all};
ghost use Rattle.spec.specs.Layout.{linked};
ghost use Rattle.kinds.specs.Words.{out_from};
ghost use Rattle.kinds.specs.Marks.{mark_word, meet_test, apart_test};
ghost use Rattle.kinds.specs.Places.{Between};
ghost use Rattle.kinds.specs.Tests.{row_test, shape_test, test_of};
ghost use Rattle.kinds.specs.Links.{line_number};
ghost use Rattle.kinds.specs.Listed.{kind_test};

use adjacency::{Rows, joined};
use numbering::{Vertex, Zone, ZoneKind};

// A zone as it was read: its number and kind, its vertices in listed order, and the zone of each vertex of the map.
#[derive(Clone, Copy)]
pub struct ListedZone<'a> {
    pub number: Zone,
    pub kind: ZoneKind,
    pub vertices: &'a [u8],
    pub zone_of: &'a [u8; 128],
}

// A set of vertices: a bit for each below 64, and for each from 64 on.
#[derive(Clone, Copy)]
struct Vertices {
    low: u64,
    high: u64,
}

impl Vertices {
    fn none() -> Vertices
        ensures { (result.low ≡ 0) × (result.high ≡ 0) }
    {
        Vertices { low: 0, high: 0 }
    }

    // Those that are not in zone z.
    fn outside(zone: &[u8; 128], z: u8) -> Vertices
        ensures { (result.low ≡ out_from zone.now z 0 64) × (result.high ≡ out_from zone.now z 64 64) }
    {
        Vertices {
            low: outside_word(zone, z, 0),
            high: outside_word(zone, z, 64),
        }
    }

    // One that is not below 128 is left out.
    fn insert(&mut self, u: u8)
        ensures { (self.new.low ≡ mark_word self.old.low 0 u) × (self.new.high ≡ mark_word self.old.high 1 u) }
    {
        let bit = 1 << (u % 64);
        match u / 64 {
            0 => self.low |= bit,
            1 => self.high |= bit,
            _ => {}
        }
    }

    // Is vertex v joined to each of them?
    fn all_joined(&self, rows: &Rows, v: u8) -> bool
        requires { v < 128 }
        ensures { result ≡ meet_test rows.now self.now.low self.now.high v }
    {
        let row = &rows.words()[v as usize];
        row[0] & self.low == self.low && row[1] & self.high == self.high
    }

    // Is vertex v joined to none of them?
    fn none_joined(&self, rows: &Rows, v: u8) -> bool
        ensures { result ≡ apart_test rows.now self.now.low self.now.high v }
    {
        if v >= 128 {
            return true;
        }
        let row = &rows.words()[v as usize];
        row[0] & self.low == 0 && row[1] & self.high == 0
    }
}

// The word of 64 vertices: bit i says that vertex from + i is not in zone z.
fn outside_word(zone: &[u8; 128], z: u8, from: usize) -> u64
    requires { from ≤ 64 }
    ensures { result ≡ out_from zone.now z from 64 }
{
    let mut word = 0;
    for i in (0..64).rev() {
        word = word * 2 + u64::from(zone[from + i] != z);
    }
    word
}

// Is place j, from 1 on, of a line of vertices, or of a ring, joined to the first?
fn first_linked(ring: bool, size: usize, j: usize) -> bool
    requires { (0 < j) × (j < size) }
    ensures { result ≡ linked (line_number ring) size 0 j }
{
    let next = j == 1;
    next || ring && j + 1 == size
}

// Are any two places of a clique joined?
fn clique_ok(rows: &Rows, vertices: &[u8]) -> bool
    ensures { result ≡ shape_test rows.now vertices.now 3 }
{
    let mut before = Vertices::none();
    for &v in vertices {
        if v >= 128 {
            return vertices.len() == 1;
        }
        if !before.all_joined(rows, v) {
            return false;
        }
        before.insert(v);
    }
    true
}

// Is place j of a line, or of a ring, joined to the place before it, to the first as it should be, and to none between?
fn row_ok(rows: &Rows, vertices: &[u8], ring: bool, j: usize, between: Vertices) -> bool
    requires place { (0 < j) × (j < length vertices.now) }
    requires between { Between rows.now vertices.now between.low between.high j }
    ensures { result ≡ row_test rows.now vertices.now (line_number ring) j }
{
    let v = vertices[j];
    if !joined(rows.words(), Vertex(v), Vertex(vertices[j - 1])) {
        return false;
    }
    let first = joined(rows.words(), Vertex(v), Vertex(vertices[0]));
    if first != first_linked(ring, vertices.len(), j) {
        return false;
    }
    between.none_joined(rows, v)
}

// Are the edges inside a zone those of a line, as of a stack or hall, or of a ring?
fn line_ok(rows: &Rows, vertices: &[u8], ring: bool) -> bool
    ensures { result ≡ shape_test rows.now vertices.now (line_number ring) }
{
    let mut between = Vertices::none();
    for j in 1..vertices.len() {
        if !row_ok(rows, vertices, ring, j, between) {
            return false;
        }
        if j > 1 {
            between.insert(vertices[j - 1]);
        }
    }
    true
}

// Does no edge lead out of the zone but from its first vertex?
fn closed_ok(rows: &Rows, vertices: &[u8], zone: &[u8; 128], z: u8) -> bool
    ensures { result ≡ list_all (apart_test rows.now (out_from zone.now z 0 64) (out_from zone.now z 64 64)) (drop 1 vertices.now) }
{
    let outside = Vertices::outside(zone, z);
    vertices
        .iter()
        .skip(1)
        .all(|v| outside.none_joined(rows, *v))
}

// Is a zone of its kind?
pub fn of_kind(rows: &Rows, zone: &ListedZone) -> bool
    ensures { result ≡ test_of rows.now zone.now.vertices.now zone.now.zone_of.now zone.now.number.0 (number_of zone.now.kind) }
{
    let vertices = zone.vertices;
    match zone.kind {
        ZoneKind::Stack => {
            line_ok(rows, vertices, false) && closed_ok(rows, vertices, zone.zone_of, zone.number.0)
        }
        ZoneKind::Hall => line_ok(rows, vertices, false),
        ZoneKind::Clique => clique_ok(rows, vertices),
        ZoneKind::Ring => line_ok(rows, vertices, true),
    }
}

// Is zone z, whose `size` vertices stand in `listed` from `first` on, of the kind with this number? A number that no kind has is refused,
// and so is a part that goes past the listing.
pub fn part_of_kind(
    rows: &Rows,
    listed: &[u8; 128],
    zone: &[u8; 128],
    z: Zone,
    kind: u8,
    first: usize,
    size: usize,
) -> bool
    ensures { result ≡ kind_test rows.now listed.now zone.now z.0 kind first size }
{
    let Ok(kind) = ZoneKind::try_from(kind) else {
        return false;
    };
    let Some(rest) = listed.get(first..) else {
        return false;
    };
    let Some(vertices) = rest.get(..size) else {
        return false;
    };
    let part = ListedZone {
        number: z,
        kind,
        vertices,
        zone_of: zone,
    };
    of_kind(rows, &part)
}
