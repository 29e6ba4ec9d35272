// Seats for codes: each code takes the first free seat from its own start on. A walk that meets an
// equal code has found that the codes are not distinct.
ghost use Rattle.std.specs.Prelude.{◌≡◌, ◌≤◌, ◌<◌, ◌*◌, IfSome, min, length};
ghost use Rattle.rules.specs.Sound.{distinct};
ghost use Rattle.distinct.specs.Rooms.{Roomy};
ghost use Rattle.distinct.specs.Seats.{start_of, after};

use store::rows::clear;

const TWO_TO_32: u64 = 4294967296;

// Where the walk of a code starts: the top bits of a product tell, so that near codes start apart.
fn start_of(code: u64, many: usize) -> usize
    requires { many ≤ 4294967296 }
    ensures { result ≡ start_of many code }
{
    let low = code % TWO_TO_32 * 1640531527;
    let high = code / TWO_TO_32 * 1481765933;
    ((low + high) % TWO_TO_32 * many as u64 / TWO_TO_32) as usize
}

fn seat_after(at: usize, many: usize) -> usize
    requires { at < many }
    ensures { result ≡ after many at }
{
    if at + 1 < many { at + 1 } else { 0 }
}

// None where the walks are so long that an order is quicker.
fn fill_seats(codes: &[u64], seats: &mut [u32]) -> Option<bool>
    requires codes_nonzero { 0 < length codes.now }
    requires codes_len_bound { length codes.now ≤ 65536 }
    requires seats_nonzero { 0 < length seats.old }
    requires seats_len_bound { length seats.old ≤ 4294967296 }
    ensures { IfSome result (λ told. told ≡ distinct codes.now) }
{
    let many = seats.len();
    clear(seats);
    let mut done = 0;
    let mut at = start_of(codes[0], many);
    for _ in 0..8 * codes.len() {
        let seat = seats[at] as usize;
        if seat == 0 {
            done += 1;
            seats[at] = done as u32;
            if done == codes.len() {
                return Some(true);
            }
            at = start_of(codes[done], many);
        } else {
            if codes[seat - 1] == codes[done] {
                return Some(false);
            }
            at = seat_after(at, many);
        }
    }
    None
}

// Four seats for each code keep walks short; of less room all is used.
fn seat_count(count: usize, room: usize) -> usize
    requires { Roomy count room }
    ensures { result ≡ min (4 * count) room }
{
    room.min(4 * count)
}

pub fn seats_tell(codes: &[u64], room: &mut [u32]) -> Option<bool>
    requires { Roomy (length codes.now) (length room.old) }
    ensures { IfSome result (λ told. told ≡ distinct codes.now) }
{
    if codes.is_empty() {
        return Some(true);
    }
    let many = seat_count(codes.len(), room.len());
    fill_seats(codes, &mut room[0..many])
}
