// A zone's vertices, none of them twice.
ghost use Rattle.std.specs.Prelude.{◌≡◌};
ghost use Rattle.motion.specs.Coupling.{Listed};

use numbering::ZoneVertices;

// The vertices of a zone in listed order: each is one of N, and none stands twice.
#[derive(Clone, Copy)]
pub struct ListedVertices<'a, const N: usize> {
    pub vertices: &'a [u8],
    pub ghost listed: { Listed N vertices.now },
}

impl<'a> ListedVertices<'a, 128> {
    // As vertices that are at most 128: there are no more different ones.
    pub fn short(self) -> ZoneVertices<'a>
        ensures { result.vertices ≡ self.entry.vertices }
    {
        ZoneVertices {
            vertices: self.vertices,
        }
    }
}
