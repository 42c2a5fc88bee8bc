// An open target: a place that is empty and some robot's target.
ghost use Rattle.std.specs.Prelude.{◌≡◌, ℕ, ◌+◌, ◌<◌, ◌≤◌, min, max, false, length, drop, slice_index};
ghost use Rattle.spec.specs.Clique.{open_target};
ghost use Rattle.cells.specs.Cells.{PlaceFound};
ghost use Rattle.arranging.specs.Toward.{open_place};

// Does nobody stand on a place, and is it somebody's target? x is what stands there, y what is to stand there.
fn is_open(x: u8, y: u8) -> bool
    ensures { result ≡ open_place x y }
{
    x == 0 && y != 0
}

// Is one of sixteen places open? All are looked at, which is quicker than one after the other.
fn has_open(cells: &[u8], goal: &[u8]) -> bool
    requires { (length cells.now ≡ 16) × (length goal.now ≡ 16) }
    ensures { result ≡ false → (j : ℕ) → j < 16 → open_place (slice_index cells.now j) (slice_index goal.now j) ≡ false }
{
    cells
        .iter()
        .zip(goal)
        .fold(false, |seen, (x, y)| seen | is_open(*x, *y))
}

// From where on an open target is to be looked for: none of the places before is one.
// The loop goes by sixteen, and ends where fewer are left or one of them is open.
fn pass_sixteens(cells: &[u8], goal: &[u8], from: usize) -> usize
    requires { from ≤ min (length cells.now) (length goal.now) }
    ensures within { result ≤ min (length cells.now) (length goal.now) }
    ensures passed { result + open_target (drop result cells.now) (drop result goal.now) ≡ from + open_target (drop from cells.now) (drop from goal.now) }
{
    let n = cells.len().min(goal.len());
    let mut i = from;
    while 16 <= n - i && !has_open(&cells[i..i + 16], &goal[i..i + 16]) {
        i += 16;
    }
    i
}

// The earliest place that is empty and some robot's target, looked for from a place on.
// The place itself is often the one; after it sixteen are looked at together, as far as they go.
pub fn open_target(cells: &[u8], goal: &[u8], from: usize) -> Option<usize>
    ensures { PlaceFound (max from (min (length cells.now) (length goal.now))) (from + open_target (drop from cells.now) (drop from goal.now)) result }
{
    let n = cells.len().min(goal.len());
    if n <= from {
        return None;
    }
    if is_open(cells[from], goal[from]) {
        return Some(from);
    }
    for i in pass_sixteens(cells, goal, from)..n {
        if is_open(cells[i], goal[i]) {
            return Some(i);
        }
    }
    None
}
