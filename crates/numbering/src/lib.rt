// Points, zones and carts are three separate numberings (document 01): a robot's number can't index a table of vertices.
#![tactic(auto)]

ghost use Rattle.std.specs.Prelude.{◌≡◌, ◌<◌, ◌≤◌, length};
ghost use Rattle.numbering.specs.Kind.{number_of, least_of, goes_as, Decodes};

// A point.
#[derive(Clone, Copy, Debug, PartialEq, Eq, PartialOrd, Ord)]
pub struct Vertex(pub u8);

// A zone.
#[derive(Clone, Copy, Debug, PartialEq, Eq, PartialOrd, Ord)]
pub struct Zone(pub u8);

// A cart; 255 is no robot.
#[derive(Clone, Copy, Debug, PartialEq, Eq, PartialOrd, Ord)]
pub struct Robot(pub u8);

// The vertices of a zone in listed order, at most 128.
#[derive(Clone, Copy)]
pub struct ZoneVertices<'a> {
    pub vertices: &'a [u8],
    pub ghost short: { length vertices.now ≤ 128 },
}

// A place of a zone, from 0 on: one of 128.
#[derive(Clone, Copy)]
pub struct Place {
    pub index: usize,
    pub ghost within: { index < 128 },
}

// A zone's kind.
#[derive(Clone, Copy, Debug, PartialEq, Eq)]
pub enum ZoneKind {
    Stack,
    Hall,
    Clique,
    Ring,
}

// A number that no kind has.
#[derive(Clone, Copy, Debug, PartialEq, Eq)]
pub struct NoKind(pub u8);

impl ZoneKind {
    // The kind by whose rules a zone with this number goes: where no kind has it, a hall's.
    pub fn of(n: u8) -> ZoneKind
        ensures { result ≡ goes_as n }
    {
        ZoneKind::try_from(n).unwrap_or(ZoneKind::Hall)
    }

    // The kind's number, as map files have it.
    pub fn number(self) -> u8
        ensures { result ≡ number_of self }
    {
        match self {
            ZoneKind::Stack => 1,
            ZoneKind::Hall => 2,
            ZoneKind::Clique => 3,
            ZoneKind::Ring => 4,
        }
    }

    // The least size of a zone of this kind.
    pub fn least_size(self) -> u8
        ensures { result ≡ least_of self }
    {
        match self {
            ZoneKind::Ring => 3,
            ZoneKind::Stack | ZoneKind::Hall | ZoneKind::Clique => 1,
        }
    }
}

impl TryFrom<u8> for ZoneKind {
    type Error = NoKind;

    ghost try_from_gives = { Decodes };

    fn try_from(n: u8) -> Result<Self, NoKind> {
        match n {
            1 => Ok(ZoneKind::Stack),
            2 => Ok(ZoneKind::Hall),
            3 => Ok(ZoneKind::Clique),
            4 => Ok(ZoneKind::Ring),
            _ => Err(NoKind(n)),
        }
    }
}
