// The zones of a map: their vertices one after the other in listed order, and the zone and place of each vertex.
ghost use Rattle.std.specs.Prelude.{◌≡◌, not, ◌<◌, ◌≤◌, get_or, eqb};
ghost use Rattle.spec.specs.Outcome.{below};
ghost use Rattle.zoning.specs.Bytes.{bytes};
ghost use Rattle.zoning.specs.Table.{Rep};
ghost use Rattle.zoning.specs.Vertices.{VerticesAre};
ghost use Rattle.zoning.specs.Found.{ZonesAre};

use crate::heads::read_head;
use crate::{Counts, MapFault, PayloadBytes, Zones};
use numbering::ZoneKind;

// The `used` vertices that are listed, and the zone (255 for none) and place of each vertex.
#[derive(Clone, Copy)]
pub struct Listing {
    pub used: usize,
    pub listed: [u8; 128],
    pub zone: [u8; 128],
    pub place: [u8; 128],
}

impl Listing {
    // Reads the `size` vertices of zone z from offset `from` on, behind those that are listed.
    fn read(
        &mut self,
        payload: &PayloadBytes,
        counts: Counts,
        z: u8,
        size: u8,
        from: usize,
    ) -> Result<(), MapFault>
        requires n_bound { (z < 64) × (from ≤ 65536) }
        requires rep { Rep self.old }
        ensures { VerticesAre (bytes payload.now) counts.vertices z size from self.old self.new result }
    {
        for k in 0..size {
            let o = from + k as usize;
            let v = payload.byte(o).ok_or(MapFault::Short(o))?;
            let i = usize::from(v);
            if v >= counts.vertices {
                return Err(MapFault::Listing(o));
            }
            let old = self.zone[i];
            if old != 255 {
                return Err(MapFault::Listing(o));
            }
            self.listed[self.used] = v;
            self.zone[i] = z;
            self.place[i] = k;
            self.used += 1;
        }
        Ok(())
    }
}

// Reads the zones from offset 2 on.
pub fn read_zones(payload: &PayloadBytes, counts: Counts) -> Result<Zones, MapFault>
    ensures { ZonesAre (bytes payload.now) counts.vertices counts.zones result }
{
    let mut kind = [ZoneKind::Stack; 64];
    let mut first = [0u8; 64];
    let mut size = [0u8; 64];
    let mut listing = Listing {
        used: 0,
        listed: [0u8; 128],
        zone: [255u8; 128],
        place: [0u8; 128],
    };
    let mut next: usize = 2;
    for i in 0..counts.zones {
        let head = read_head(payload, next)?;
        let used = listing.used;
        listing.read(payload, counts, i, head.size, next + 2)?;
        let z = i as usize;
        kind[z] = head.kind;
        first[z] = used as u8;
        size[z] = head.size;
        next += 2 + head.size as usize;
    }
    let Listing {
        listed,
        zone,
        place,
        ..
    } = listing;
    Ok(Zones {
        next,
        kind,
        first,
        size,
        listed,
        zone,
        place,
    })
}

// Has every vertex below n a zone? One that is not below 128 is not asked.
pub fn covered(zone: &[u8; 128], n: usize) -> bool
    ensures { result ≡ below (λ v. not (eqb (get_or zone.now v 0) 255)) n }
{
    zone[..n.min(128)].iter().all(|z| *z != 255)
}
