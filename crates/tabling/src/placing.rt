// The earliest empty place, by the free word.
ghost use Rattle.std.specs.Prelude.{◌≡◌, length, eqb};
ghost use Rattle.spec.specs.Arrangement.{Arrangement, seek};
ghost use Rattle.spec.specs.State.{arrangement_of, robot_on};
ghost use Rattle.cells.specs.Cells.{PlaceFound};
ghost use Rattle.tabling.specs.Places.{Tests, free_word};

use motion::State;
use numbering::{Robot, Vertex};

// The word of the empty places among the first 64: bit k is set where place k is empty.
fn free_word<F: Fn(u8) -> bool>(places: &[u8], is_empty: F) -> u64
    requires { F.IsAlwaysCallable is_empty }
    ensures { (a : Arrangement) → Tests (F.post is_empty) places.now a → result ≡ free_word 64 a }
{
    let mut w: u64 = 0;
    for k in (0..places.len().min(64)).rev() {
        w = w * 2 + u64::from(is_empty(places[k]));
    }
    w
}

// The earliest empty place: the trailing zeros of the free word.
// A clique has at most 64 places; a longer zone whose first 64 are taken is searched.
fn earliest<F: Fn(u8) -> bool>(places: &[u8], is_empty: F) -> Option<usize>
    requires { F.IsAlwaysCallable is_empty }
    ensures { (a : Arrangement) → Tests (F.post is_empty) places.now a → PlaceFound (length places.now) (seek 0 a) result }
{
    let w = free_word(places, &is_empty);
    if 0 < w {
        return Some(u64::trailing_zeros(w) as usize);
    }
    places.iter().position(|x| is_empty(*x))
}

// "the earliest listed empty point" of a zone.
pub fn first_free<const N: usize, const M: usize>(state: &State<N, M>, zone: &[u8]) -> Option<usize>
    ensures { PlaceFound (length zone.now) (seek 0 (arrangement_of state.now zone.now)) result }
{
    earliest(
        zone,
        |v|
            ensures { result ≡ eqb (robot_on state.entry.now v) 255 }
        { state.robot_on(Vertex(v)) == Robot(255) },
    )
}

// The earliest empty place of an arrangement in cells.
pub fn first_empty(cells: &[u8]) -> Option<usize>
    ensures { PlaceFound (length cells.now) (seek 0 cells.now) result }
{
    earliest(cells, |x| x == 0)
}
