// A map read from its payload, accepted or refused (document 01, "Block files" and "Zones and configurations").
//
//     map      the whole map
//     tables   the tables of a map that was read, indexed by a vertex or a zone and by nothing else
#![tactic(auto)]

pub mod map;
pub mod tables;

pub use map::read_map;
use numbering::ZoneKind;
use std::marker::Model;

// A map. Zone z has the kind kind[z] and the vertices listed[first[z]] to listed[first[z] + size[z] - 1]; vertex v stands in zone
// zone[v] at place place[v]. The listing has a place for L vertices: 128 of a map that was read.
#[derive(Clone, Copy)]
pub struct MapTables<const L: usize> {
    vertices: u8,
    zones: u8,
    kind: [ZoneKind; 64],
    first: [u8; 64],
    size: [u8; 64],
    listed: [u8; L],
    zone: [u8; 128],
    place: [u8; 128],
}

impl<const L: usize> Model for MapTables<L> {
    ghost use Rattle.layout.specs.Lists.{MapLists};

    ghost Value = { MapLists };

    ghost use Rattle.layout.specs.View.{view_of, held_in, held_again, Whole};

    ghost view = { view_of };

    ghost invariant = { Whole };

    ghost inverse = { held_in };

    ghost inverse_ok = { λ a h. held_again a };
}
