// Lists of robots in lent bytes. An index and its list stay two values: one call finds it, and the next changes the list there.
ghost use Rattle.std.specs.Prelude.{◌≡◌, ◌-◌, ◌≤◌, ◌<◌, length, take};
ghost use Rattle.orders.specs.Orders.{without, put_in, turned_by};
ghost use Rattle.rosters.specs.Lists.{Shifting, Parting};

// All but the first of a part come one nearer. As a function of the part alone, here and below, the loop is compiled to one move of memory, which is
// quicker than `copy_within` and than a loop from an index on.
fn shift_down(part: &mut [u8])
    requires { 0 < length part.old }
    ensures { Shifting part.old 0 (length part.old - 1) part.new }
{
    for i in 0..part.len() - 1 {
        part[i] = part[i + 1];
    }
}

// Takes the robot at index t out; the part's last byte is left over. A list of one or two needs no loop, and the pair no branch.
pub fn remove(part: &mut [u8], t: usize)
    requires { t < length part.old }
    ensures { (length part.new ≡ length part.old) × (take (length part.old - 1) part.new ≡ without t part.old) }
{
    let n = part.len();
    if n == 1 {
        return;
    }
    if n == 2 {
        part[0] = part[1 - t];
        return;
    }
    shift_down(&mut part[t..]);
}

// All but the last of a part go one further.
fn shift_up(part: &mut [u8])
    requires { 0 < length part.old }
    ensures { Parting part.old (length part.old - 1) 0 part.new }
{
    for i in (0..part.len() - 1).rev() {
        part[i + 1] = part[i];
    }
}

// Puts robot r before the one at index t; the part's last byte is the room for it.
pub fn insert(part: &mut [u8], t: usize, r: u8)
    requires { t < length part.old }
    ensures { part.new ≡ put_in t r (take (length part.old - 1) part.old) }
{
    shift_up(&mut part[t..]);
    part[t] = r;
}

// Turns a list: its element q comes first. `rotate_left` clears a room of 4,096 bytes at each call.
pub fn turn(list: &mut [u8], q: usize)
    requires { q ≤ length list.old }
    ensures { list.new ≡ turned_by q list.old }
{
    let (front, back) = list.split_at_mut(q);
    front.reverse();
    back.reverse();
    list.reverse();
}
