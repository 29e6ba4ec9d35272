// Each code against all after it: the plain test, which decides where no quicker one did.
ghost use Rattle.std.specs.Prelude.{◌≡◌, ◌<◌, length};
ghost use Rattle.rules.specs.Sound.{distinct};
ghost use Rattle.distinct.specs.Pairs.{none_after};

// No later code is the one at this place.
fn is_last(codes: &[u64], place: usize) -> bool
    requires { place < length codes.now }
    ensures { result ≡ none_after codes.now place }
{
    let code = codes[place];
    for done in place + 1..codes.len() {
        if code == codes[done] {
            return false;
        }
    }
    true
}

pub fn pairs_differ(codes: &[u64]) -> bool
    ensures { result ≡ distinct codes.now }
{
    for done in 0..codes.len() {
        if !is_last(codes, done) {
            return false;
        }
    }
    true
}
