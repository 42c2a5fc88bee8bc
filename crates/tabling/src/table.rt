// The table of an arrangement: the place of each robot by its cell, and the size for a robot that is not inside.
ghost use Rattle.std.specs.Prelude.{◌≡◌, ℕ, ◌≤◌, ◌<◌, length, get_or, set};
ghost use Rattle.spec.specs.Arrangement.{seek};

use std::marker::Model;

// The places, by cell.
#[derive(Drop)]
pub struct Table {
    places: [u8; 256],
}

impl Model for Table {
    ghost use Rattle.std.specs.Prelude.{ℕ, List};

    ghost Value = { List ℕ };

    ghost view = { λ t. t.places };
}

impl Table {
    // The table of an arrangement in cells: from the last place to the first, so that the earliest counts.
    pub fn of(cells: &[u8]) -> Table
        requires { length cells.now ≤ 128 }
        ensures { (length result ≡ 256) × ((x : ℕ) → x < 256 → get_or result x 0 ≡ seek x cells.now) }
    {
        let mut places = [cells.len() as u8; 256];
        for k in (0..cells.len()).rev() {
            places[usize::from(cells[k])] = k as u8;
        }
        Table { places }
    }

    // The robot of cell x goes to place j: the place where it was.
    pub fn go(&mut self, x: u8, j: usize) -> usize
        requires { j < 256 }
        ensures { (result ≡ get_or self.old x 0) × (self.new ≡ set self.old x j) × (x < 256) }
    {
        let i = usize::from(x);
        let from = self.places[i];
        self.places[i] = j as u8;
        usize::from(from)
    }
}
