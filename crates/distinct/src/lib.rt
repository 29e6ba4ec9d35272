// Whether codes are distinct, in linear time where they are scattered.
#![tactic(auto)]

ghost use Rattle.std.specs.Prelude.{◌≡◌, ◌≤◌, IfSome, length, take};
ghost use Rattle.rules.specs.Sound.{distinct};
ghost use Rattle.distinct.specs.Rooms.{Roomy};

use crate::orders::order_tells;
use crate::pairs::pairs_differ;
use crate::seats::seats_tell;

mod orders;
mod pairs;
mod seats;
mod sorting;

// Whether the codes are distinct, where a quick way decides that.
// An order decides where the seats did not, since many codes start at one seat.
fn tell_quickly(codes: &[u64], room: &mut [u32]) -> Option<bool>
    requires { Roomy (length codes.now) (length room.old) }
    ensures { IfSome result (λ told. told ≡ distinct codes.now) }
{
    match seats_tell(codes, room) {
        Some(told) => Some(told),
        None => order_tells(codes, room),
    }
}

// A sort that sorts leaves nothing for the pairs.
fn all_distinct(codes: &[u64], room: &mut [u32]) -> bool
    requires { Roomy (length codes.now) (length room.old) }
    ensures { result ≡ distinct codes.now }
{
    match tell_quickly(codes, room) {
        Some(told) => told,
        None => pairs_differ(codes),
    }
}

// The room is lent to work in, and what it holds afterwards means nothing. A word for each code is
// enough, four make it quick.
pub fn first_are_distinct(codes: &[u64], count: usize, room: &mut [u32]) -> bool
    requires count_in_bounds { count ≤ length codes.now }
    requires roomy { Roomy count (length room.old) }
    ensures { result ≡ distinct (take count codes.now) }
{
    all_distinct(&codes[0..count], room)
}
