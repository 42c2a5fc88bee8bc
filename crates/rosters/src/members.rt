// The same robots in two lists: by a word with a bit for each robot where all are below 64, one by one where not.
ghost use Rattle.std.specs.Prelude.{◌≡◌, max, fold, eqb};
ghost use Rattle.std.specs.List.{list_all, list_any};
ghost use Rattle.orders.specs.Orders.{same_members};
ghost use Rattle.rosters.specs.Members.{marked};

// The largest of a list.
fn highest(list: &[u8]) -> u8
    ensures { result ≡ fold max 0 list.now }
{
    list.iter().fold(0, |h, r| h.max(*r))
}

// A list's robots marked in a word.
fn marks_of(list: &[u8]) -> u64
    ensures { result ≡ marked list.now 0 }
{
    list.iter().fold(0, |word, r| word | 1 << (*r % 64))
}

// Is each robot of one list in the other?
fn all_in(list: &[u8], other: &[u8]) -> bool
    ensures { result ≡ list_all (λ r. list_any (λ y. eqb y r) other.now) list.now }
{
    list.iter().all(|r| other.contains(r))
}

// Are the same robots in two lists?
pub fn same_members(list: &[u8], other: &[u8]) -> bool
    ensures { result ≡ same_members list.now other.now }
{
    if list.len() != other.len() {
        return false;
    }
    let h = highest(list).max(highest(other));
    if h < 64 {
        return marks_of(list) == marks_of(other);
    }
    all_in(list, other) && all_in(other, list)
}
