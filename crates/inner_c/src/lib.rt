// Three calls without the test of the image, for C, so that `bench/` can measure them beside the
// same rules written in C. For nothing else: whoever calls them has to hold a sound image, and C
// cannot prove that it does.
#![tactic(auto)]

ghost use Rattle.std.specs.Prelude.{◌≡◌, true};
ghost use Rattle.rules.specs.Sound.{sound};
ghost use Rattle.rules.specs.Calls.{insert_key, sweep, ask, lookup, call_on};
ghost use Rattle.replies.specs.Told.{Tells};

use replies::{ReplyNumbers, lookup_numbers, shape_numbers, sweep_numbers};

#[unsafe(no_mangle)]
pub extern "C" fn inner_insert(
    image: &mut [u32],
    shape: u32,
    key: u32,
    attributes: u32,
) -> ReplyNumbers
    requires { sound image.old ≡ true }
    ensures { Tells image.new result (call_on image.old (insert_key shape key attributes)) }
{
    shape_numbers(shape::insert::insert_property_transition(image, shape, key, attributes))
}

#[unsafe(no_mangle)]
pub extern "C" fn inner_lookup(image: &[u32], shape: u32, key: u32) -> ReplyNumbers
    requires { sound image.now ≡ true }
    ensures { Tells image.now result (call_on image.now (ask shape (lookup key))) }
{
    lookup_numbers(questions::lookup(image, shape, key))
}

#[unsafe(no_mangle)]
pub extern "C" fn inner_sweep(image: &mut [u32]) -> ReplyNumbers
    requires { sound image.old ≡ true }
    ensures { Tells image.new result (call_on image.old sweep) }
{
    sweep_numbers(sweep::sweep(image))
}
