// An order of the places along which the codes rise shows that they are distinct. It is a
// certificate, tested after the sort, so that the sort only needs to be safe and to end.
ghost use Rattle.std.specs.Prelude.{◌≡◌, ◌≤◌, ◌<◌, IfSome, length};
ghost use Rattle.rules.specs.Sound.{distinct};
ghost use Rattle.distinct.specs.Rooms.{Roomy};
ghost use Rattle.distinct.specs.Rising.{named, in_turn, risen, equal_at};

use crate::sorting::sort_order;

// The code at the place that the order names at k, 0 where that is no place.
pub fn named_code(codes: &[u64], order: &[u32], k: usize) -> u64
    requires { k < length order.now }
    ensures { result ≡ named codes.now order.now k }
{
    codes.get(order[k] as usize).copied().unwrap_or(0)
}

#[tactic(auto, unfolding(crate::specs::Rising::in_turn))]
fn is_in_turn(codes: &[u64], order: &[u32], k: usize) -> bool
    requires { k < length order.now }
    ensures { result ≡ in_turn codes.now order.now k }
{
    (order[k] as usize) < codes.len()
        && (k == 0 || named_code(codes, order, k - 1) < named_code(codes, order, k))
}

// How far along the order the codes rise.
fn count_risen(codes: &[u64], order: &[u32]) -> usize
    ensures upper_bound { result ≤ length order.now }
    ensures value { result ≡ risen codes.now order.now }
{
    for k in 0..order.len() {
        if !is_in_turn(codes, order, k) {
            return k;
        }
    }
    order.len()
}

// Whether these are two places, with equal codes.
#[tactic(auto, unfolding(crate::specs::Rising::equal_at))]
fn are_equal(codes: &[u64], one: usize, other: usize) -> bool
    ensures { result ≡ equal_at codes.now one other }
{
    one != other && one < codes.len() && other < codes.len() && codes[one] == codes[other]
}

// An order as long as the codes along which they all rise names every place: it names none twice.
fn follow_order(codes: &[u64], order: &[u32]) -> Option<bool>
    requires { length order.now ≡ length codes.now }
    ensures { IfSome result (λ told. told ≡ distinct codes.now) }
{
    let risen_to = count_risen(codes, order);
    if risen_to == order.len() {
        return Some(true);
    }
    if risen_to == 0 {
        return None;
    }
    if are_equal(
        codes,
        order[risen_to - 1] as usize,
        order[risen_to] as usize,
    ) {
        return Some(false);
    }
    None
}

pub fn order_tells(codes: &[u64], room: &mut [u32]) -> Option<bool>
    requires { Roomy (length codes.now) (length room.old) }
    ensures { IfSome result (λ told. told ≡ distinct codes.now) }
{
    let count = codes.len();
    sort_order(codes, &mut room[0..count]);
    follow_order(codes, &room[0..count])
}
