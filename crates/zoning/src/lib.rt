// A map's zones read from its payload (document 01, "Block files"): the counts, and the zones' vertices.
//
//     heads    the counts, and a zone's kind and size
//     reading  the zones' vertices in listed order, and the zone and place of each vertex
#![tactic(auto)]

ghost use Rattle.std.specs.Prelude.{◌≡◌, ℕ, ◌+◌, ◌≤◌, ◌<◌, IfSome};
ghost use Rattle.spec.specs.Layout.{byte_at};
ghost use Rattle.zoning.specs.Bytes.{bytes, found, count_of};

pub mod heads;
pub mod reading;

use numbering::ZoneKind;

// Why a map is refused whose blocks have passed, with the payload offset or the zone.
#[derive(Clone, Copy, Debug, PartialEq, Eq)]
pub enum MapFault {
    Short(usize),
    Range(usize),
    Listing(usize),
    Edge(usize),
    Kind(usize),
}

// How many vertices and zones there are.
#[derive(Clone, Copy)]
pub struct Counts {
    pub vertices: u8,
    pub zones: u8,
    pub ghost few: { (vertices ≤ 128) × (zones ≤ 64) },
}

// A zone's kind and size.
#[derive(Clone, Copy)]
pub struct Head {
    pub kind: ZoneKind,
    pub size: u8,
}

// The zones, and the offset after them.
#[derive(Clone, Copy)]
pub struct Zones {
    pub next: usize,
    pub kind: [ZoneKind; 64],
    pub first: [u8; 64],
    pub size: [u8; 64],
    pub listed: [u8; 128],
    pub zone: [u8; 128],
    pub place: [u8; 128],
}

// The first `len` payload bytes of a file, read where they stand in it; 0 past the file's end.
#[derive(Clone, Copy)]
pub struct PayloadBytes<'a> {
    pub file: &'a [u8],
    pub len: usize,
}

impl PayloadBytes<'_> {
    // Byte o; none where the payload ends before.
    pub fn byte(&self, o: usize) -> Option<u8>
        ensures { (r : ℕ) → byte_at r (bytes self.now) o ≡ found r o result }
    {
        let there = o < self.len;
        if there {
            return Some(wire::payload_byte(self.file, o));
        }
        None
    }

    // The two-byte number at offset o; none where the payload ends before.
    pub fn word(&self, o: usize) -> Option<usize>
        ensures value { result ≡ count_of self.now.file.now self.now.len o }
        ensures inside { IfSome result (λ _. o + 1 < self.now.len) }
    {
        if o < self.len && o + 1 < self.len {
            return Some(wire::payload_word(self.file, o) as usize);
        }
        None
    }
}
