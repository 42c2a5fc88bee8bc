// The tables of a map that was read: one by vertices is indexed by a vertex, one by zones by a zone, and by nothing else.
ghost use Rattle.std.specs.Prelude.{◌≡◌, ◌↔◌, ◌+◌, ◌<◌, ◌≤◌, IsTrue, length, get_or, map};
ghost use Rattle.numbering.specs.Kind.{number_of};
ghost use Rattle.layout.specs.Lists.{HasPart, part_of};

use crate::MapTables;
use numbering::{Vertex, Zone, ZoneKind, ZoneVertices};

// Entry i of a table, `none` past its end.
fn entry<const N: usize>(table: &[u8; N], i: usize, none: u8) -> u8
    ensures { result ≡ get_or table.now i none }
{
    table.get(i).copied().unwrap_or(none)
}

impl<const L: usize> MapTables<L> {
    // The tables of any arrays.
    pub fn of(
        vertices: u8,
        zones: u8,
        kind: [ZoneKind; 64],
        first: [u8; 64],
        size: [u8; 64],
        listed: [u8; L],
        zone: [u8; 128],
        place: [u8; 128],
    ) -> MapTables<L>
        ensures { result ≡ record { vertices = vertices; zones = zones; kind = map number_of kind; first = first; size = size; listed = listed.entry; zone = zone; place = place } }
    {
        MapTables {
            vertices,
            zones,
            kind,
            first,
            size,
            listed,
            zone,
            place,
        }
    }

    // How many vertices there are.
    pub fn vertices(&self) -> usize
        ensures { result ≡ self.now.vertices }
    {
        self.vertices as usize
    }

    // How many zones there are.
    pub fn zones(&self) -> usize
        ensures { result ≡ self.now.zones }
    {
        self.zones as usize
    }

    // The zone of a vertex; 255 where there is none.
    pub fn zone_of(&self, v: Vertex) -> Zone
        ensures zone { result.0 ≡ get_or self.now.zone v.0 255 }
        ensures below { v.0 < 128 → result.0 ≡ get_or self.now.zone v.0 0 }
    {
        Zone(entry(&self.zone, v.0 as usize, 255))
    }

    // The place of a vertex in its zone.
    pub fn place_of(&self, v: Vertex) -> usize
        ensures { result ≡ get_or self.now.place v.0 0 }
    {
        entry(&self.place, v.0 as usize, 0) as usize
    }

    // The same two of a vertex that is one of 128, looked up without a test: judging asks them at each step.
    pub fn zone_at(&self, v: Vertex) -> Zone
        requires { v.0 < 128 }
        ensures { result.0 ≡ get_or self.now.zone v.0 0 }
    {
        Zone(self.zone[v.0 as usize])
    }

    pub fn place_at(&self, v: Vertex) -> usize
        requires { v.0 < 128 }
        ensures { result ≡ get_or self.now.place v.0 0 }
    {
        self.place[v.0 as usize] as usize
    }

    // Is a zone one of the tables', with its vertices in the listing?
    pub fn has_part(&self, z: Zone) -> bool
        ensures part { IsTrue result ↔ HasPart self.now z.0 }
        ensures short { IsTrue result → get_or self.now.first z.0 0 + get_or self.now.size z.0 0 ≤ L }
    {
        let i = z.0 as usize;
        if i >= 64 {
            return false;
        }
        self.first[i] as usize + self.size[i] as usize <= L
    }

    // The kind of a zone.
    pub fn kind_of(&self, z: Zone) -> ZoneKind
        requires { z.0 < 64 }
        ensures { number_of result ≡ get_or self.now.kind z.0 0 }
    {
        self.kind[z.0 as usize]
    }

    // Where a zone's vertices begin in the listing.
    pub fn first_of(&self, z: Zone) -> usize
        requires { z.0 < 64 }
        ensures { result ≡ get_or self.now.first z.0 0 }
    {
        self.first[z.0 as usize] as usize
    }

    // A zone's entry in the table of kinds, and in that of first positions; 0 where there is none.
    pub fn kind_entry(&self, z: Zone) -> u8
        ensures { result ≡ get_or self.now.kind z.0 0 }
    {
        match self.kind.get(z.0 as usize) {
            Some(kind) => kind.number(),
            None => 0,
        }
    }

    pub fn first_entry(&self, z: Zone) -> u8
        ensures { result ≡ get_or self.now.first z.0 0 }
    {
        entry(&self.first, z.0 as usize, 0)
    }

    // The size of a zone; 0 where there is none.
    pub fn size_of(&self, z: Zone) -> usize
        ensures { result ≡ get_or self.now.size z.0 0 }
    {
        entry(&self.size, z.0 as usize, 0) as usize
    }

    // The same of one of 64 zones, looked up without a test.
    pub fn size_at(&self, z: Zone) -> usize
        requires { z.0 < 64 }
        ensures { result ≡ get_or self.now.size z.0 0 }
    {
        self.size[z.0 as usize] as usize
    }

    // How many vertices the listing has a place for.
    pub fn room(&self) -> usize
        ensures { (result ≡ L) × (length self.now.listed ≡ L) }
    {
        let listed: &[u8] = &self.listed;
        listed.len()
    }

    // The vertex at a position of the listing; 0 past its end.
    pub fn vertex_at(&self, i: usize) -> Vertex
        ensures { result.0 ≡ get_or self.now.listed i 0 }
    {
        Vertex(entry(&self.listed, i, 0))
    }

    // The vertices of a zone in listed order.
    pub fn listed_of(&self, z: Zone) -> &[u8]
        requires { HasPart self.now z.0 }
        ensures { result.now ≡ part_of self.now z.0 }
    {
        let i = z.0 as usize;
        let a = self.first[i] as usize;
        let listed: &[u8] = &self.listed;
        &listed[a..a + self.size[i] as usize]
    }
}

impl MapTables<128> {
    // The same of a map's zone: they are at most 128.
    pub fn vertices_of(&self, z: Zone) -> ZoneVertices<'_>
        requires { HasPart self.now z.0 }
        ensures { result.vertices.now ≡ part_of self.now z.0 }
    {
        let _room = self.room();
        ZoneVertices {
            vertices: self.listed_of(z),
        }
    }
}
