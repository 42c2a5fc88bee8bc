// Lists of robots in lent bytes: a zone's configuration is kept as one.
//
//     lists    a robot taken out or put in
//     finding  a robot sought in a list
//     members  the same robots in two lists
#![tactic(auto)]

ghost use Rattle.std.specs.Prelude.{◌≤◌, ◌<◌};

pub mod finding;
pub mod lists;
pub mod members;

use numbering::{Zone, ZoneKind};

// A place in a zone, with the zone's kind and size, the cell from which on its list stands, and how many robots it has.
#[derive(Clone, Copy)]
pub struct Spot {
    pub zone: Zone,
    pub kind: ZoneKind,
    pub first: usize,
    pub size: usize,
    pub count: usize,
    pub place: usize,
    pub ghost fits: { count ≤ size },
    pub ghost inside: { place < size },
}
