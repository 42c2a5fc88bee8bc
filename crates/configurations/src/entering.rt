// Who can enter a zone that is not full, by the list of its robots, and the list afterwards: in a part that has room for one more.
ghost use Rattle.std.specs.Prelude.{◌≡◌, List, ℕ, suc, ◌+◌, ◌-◌, ◌*◌, ◌/◌, ◌≤◌, ◌<◌, length, take};
ghost use Rattle.spec.specs.Ring.{wrap};
ghost use Rattle.numbering.specs.Kind.{number_of};
ghost use Rattle.orders.specs.Orders.{entry_in, ring_entered, entered};
ghost use Rattle.orders.specs.Orders.{list_met, clique_enters, ring_enters, hall_enters, enter_test};
ghost use Rattle.walking.specs.Held.{held_part};
ghost use Rattle.configurations.specs.Entering.{EntryIndex, EntryFound, entry_on};

use numbering::{Robot, ZoneKind};
use reaching::reach::has_room;
use rosters::Spot;
use rosters::finding::index_in;
use rosters::lists::{insert, remove, turn};
use rosters::members::same_members;
use walking::copy_list;

// Where a robot comes in that has the named one behind it, where that one is inside.
fn entry_index(list: &[u8], behind: u8) -> Option<usize>
    ensures { EntryIndex list.now behind result }
{
    if behind == 255 {
        return Some(0);
    }
    let t = index_in(list, behind)?;
    Some(t + 1)
}

// The same in a hall, at place j.
fn hall_entry(list: &[u8], size: usize, j: usize, behind: u8) -> Option<usize>
    requires { length list.now < size }
    ensures { EntryFound (hall_enters size list.now j behind) (length list.now) (entry_in behind list.now) result }
{
    let t = entry_index(list, behind)?;
    has_room(size, j, t, list.len() - t).then_some(t)
}

// In a ring: only where it is empty may none be named.
fn ring_entry(list: &[u8], behind: u8) -> Option<usize>
    ensures { EntryFound (ring_enters list.now behind) (length list.now) (entry_in behind list.now) result }
{
    if behind == 255 && !list.is_empty() && !list.contains(&behind) {
        return None;
    }
    entry_index(list, behind)
}

// "Entering needs a reachable one with to empty and the named neighbour": at which index of the list a robot comes in at place j. It fills no clique.
pub fn entry_at(kind: ZoneKind, list: &[u8], size: usize, j: usize, behind: u8) -> Option<usize>
    requires { (length list.now < size) × (number_of kind ≡ 3 → suc (length list.now) ≡ size → ⊥) }
    ensures { (r : ℕ) (follow : List ℕ) → EntryFound (enter_test (number_of kind) size list.now r j behind follow) (length list.now) (entry_on (number_of kind) behind list.now) result }
{
    match kind {
        ZoneKind::Clique => (behind == 255).then_some(list.len()),
        ZoneKind::Ring => ring_entry(list, behind),
        _ => hall_entry(list, size, j, behind),
    }
}

// Does the follow list name the robots of the list, and r at place j? That one is taken out of it.
fn list_met(list: &[u8], r: u8, j: usize, follow: &mut [u8]) -> bool
    requires { (j ≤ length list.now) × (length follow.old ≡ length list.now + 1) }
    ensures { result ≡ list_met list.now r j follow.old }
{
    if follow[j] != r {
        return false;
    }
    remove(follow, j);
    same_members(list, &follow[..list.len()])
}

// The same of the follow list that stands in the payload from `from` on; it is copied into the lent bytes.
fn list_met_in(file: &[u8], from: usize, list: &[u8], r: u8, j: usize, follow: &mut [u8]) -> bool
    requires { (j ≤ length list.now) × (length follow.old ≡ length list.now + 1) × (from + length follow.old ≤ length file.now / 512 * 504) }
    ensures { (len : ℕ) → len ≤ length file.now / 512 * 504 → from + length follow.old ≤ len → result ≡ list_met list.now r j (held_part file.now len from (length follow.old)) }
{
    copy_list(file, from, follow);
    list_met(list, r, j, follow)
}

// Can robot r fill a clique at this spot, as the follow list says that stands in the payload from `from` on?
pub fn can_fill(file: &[u8], from: usize, at: Spot, list: &[u8], r: Robot, behind: u8) -> bool
    requires { (length list.now + 1 ≡ at.size) × (at.size ≤ 128) × (from + at.size ≤ length file.now / 512 * 504) }
    ensures { (len : ℕ) → len ≤ length file.now / 512 * 504 → from + at.size ≤ len → result ≡ clique_enters at.size list.now r.0 at.place behind (held_part file.now len from at.size) }
{
    if behind != 255 {
        return false;
    }
    let mut follow = [0u8; 128];
    list_met_in(file, from, list, r.0, at.place, &mut follow[..at.size])
}

// How far a filled ring of n places is turned, where the robot at index t is to come to place j.
fn turn_count(n: usize, t: usize, j: usize) -> usize
    requires { (t ≤ n) × (j < n) }
    ensures { (result ≡ wrap n (n + t - j)) × (result ≤ n) }
{
    if t < j {
        return n - (j - t);
    }
    t - j
}

// A robot comes into a ring at this spot, before the one at index t; where that fills the ring, it is turned so that the robot stands there.
// An index and its list stay two values, as in `rosters`.
fn ring_enter(at: Spot, part: &mut [u8], t: usize, r: u8)
    requires { t < length part.old }
    ensures { (behind : ℕ) → t ≡ entry_in behind (take (length part.old - 1) part.old) → part.new ≡ ring_entered at.size (take (length part.old - 1) part.old) r at.place behind }
{
    insert(part, t, r);
    if part.len() == at.size {
        let q = turn_count(at.size, t, at.place);
        turn(part, q);
    }
}

// Robot r comes in at this spot, before the one at index t, and fills no clique: the list is the one of the configuration after the step.
pub fn enter_at(at: Spot, part: &mut [u8], t: usize, r: Robot)
    requires { (length part.old ≡ at.count + 1) × (t ≤ at.count) × (number_of at.kind ≡ 3 → suc at.count ≡ at.size → ⊥) }
    ensures { (behind : ℕ) (list : List ℕ) → t ≡ entry_on (number_of at.kind) behind (take at.count part.old) → part.new ≡ entered (number_of at.kind) at.size (take at.count part.old) r.0 at.place behind list }
{
    match at.kind {
        ZoneKind::Ring => ring_enter(at, part, t, r.0),
        _ => insert(part, t, r.0),
    }
}
