// The public calls for C: a lent slice is a pointer and a count of words, and each answer four numbers.
#![tactic(auto, using(replies::specs::Told::tells))]

ghost use Rattle.std.specs.Prelude.{◌≡◌};
ghost use Rattle.rules.specs.Calls.{new_root, new_unique, insert_key, change_key, remove_key, change_prototype};
ghost use Rattle.rules.specs.Calls.{hold, release, previous, sweep, ask, lookup, keys_into, prototype_of};
ghost use Rattle.rules.specs.Calls.{is_shared, transitions_of, properties_of, call_on, format};
ghost use Rattle.replies.specs.Told.{Tells, limits_are, tested, listed_in};

use replies::{
    ReplyNumbers, done_numbers, keys_numbers, lookup_numbers, question_numbers, shape_numbers,
    sweep_numbers,
};
use rules::Refusal;
use store::Limits;

// The four limits in the header's order. It alone takes an image that is not sound.
#[unsafe(no_mangle)]
pub extern "C" fn shapes_format(image: &mut [u32], s: u32, t: u32, k: u32, e: u32) -> ReplyNumbers
    ensures { Tells image.new result (format (limits_are s t k e) image.old) }
{
    done_numbers(shapes::format(
        image,
        Limits {
            S: s,
            T: t,
            K: k,
            E: e,
        },
    ))
}

#[unsafe(no_mangle)]
pub extern "C" fn shapes_root(image: &mut [u32]) -> ReplyNumbers
    ensures { Tells image.new result (call_on image.old new_root) }
{
    shape_numbers(shapes::root(image))
}

#[unsafe(no_mangle)]
pub extern "C" fn shapes_unique(image: &mut [u32]) -> ReplyNumbers
    ensures { Tells image.new result (call_on image.old new_unique) }
{
    shape_numbers(shapes::unique(image))
}

#[unsafe(no_mangle)]
pub extern "C" fn shapes_insert(
    image: &mut [u32],
    shape: u32,
    key: u32,
    attributes: u32,
) -> ReplyNumbers
    ensures { Tells image.new result (call_on image.old (insert_key shape key attributes)) }
{
    shape_numbers(shapes::insert(image, shape, key, attributes))
}

#[unsafe(no_mangle)]
pub extern "C" fn shapes_change(
    image: &mut [u32],
    shape: u32,
    key: u32,
    attributes: u32,
) -> ReplyNumbers
    ensures { Tells image.new result (call_on image.old (change_key shape key attributes)) }
{
    shape_numbers(shapes::change(image, shape, key, attributes))
}

#[unsafe(no_mangle)]
pub extern "C" fn shapes_remove(image: &mut [u32], shape: u32, key: u32) -> ReplyNumbers
    ensures { Tells image.new result (call_on image.old (remove_key shape key)) }
{
    shape_numbers(shapes::remove(image, shape, key))
}

#[unsafe(no_mangle)]
pub extern "C" fn shapes_set_prototype(image: &mut [u32], shape: u32, to: u32) -> ReplyNumbers
    ensures { Tells image.new result (call_on image.old (change_prototype shape to)) }
{
    shape_numbers(shapes::set_prototype(image, shape, to))
}

#[unsafe(no_mangle)]
pub extern "C" fn shapes_hold(image: &mut [u32], shape: u32) -> ReplyNumbers
    ensures { Tells image.new result (call_on image.old (hold shape)) }
{
    shape_numbers(shapes::hold(image, shape))
}

#[unsafe(no_mangle)]
pub extern "C" fn shapes_release(image: &mut [u32], shape: u32) -> ReplyNumbers
    ensures { Tells image.new result (call_on image.old (release shape)) }
{
    done_numbers(shapes::release(image, shape))
}

#[unsafe(no_mangle)]
pub extern "C" fn shapes_previous(image: &mut [u32], shape: u32) -> ReplyNumbers
    ensures { Tells image.new result (call_on image.old (previous shape)) }
{
    shape_numbers(shapes::previous(image, shape))
}

#[unsafe(no_mangle)]
pub extern "C" fn shapes_sweep(image: &mut [u32]) -> ReplyNumbers
    ensures { Tells image.new result (call_on image.old sweep) }
{
    sweep_numbers(shapes::sweep(image))
}

#[unsafe(no_mangle)]
pub extern "C" fn shapes_lookup(image: &[u32], shape: u32, key: u32) -> ReplyNumbers
    ensures { Tells image.now result (call_on image.now (ask shape (lookup key))) }
{
    lookup_numbers(shapes::lookup(image, shape, key))
}

#[unsafe(no_mangle)]
pub extern "C" fn shapes_keys(image: &[u32], shape: u32, out: &mut [u32]) -> ReplyNumbers
    ensures tells { Tells image.now result (call_on image.now (ask shape (keys_into out.old))) }
    ensures out_after { out.new
        ≡ listed_in out.old (call_on image.now (ask shape (keys_into out.old))) }
{
    keys_numbers(shapes::keys(image, shape, out))
}

#[unsafe(no_mangle)]
pub extern "C" fn shapes_prototype(image: &[u32], shape: u32) -> ReplyNumbers
    ensures { Tells image.now result (call_on image.now (ask shape prototype_of)) }
{
    question_numbers(shapes::prototype(image, shape))
}

#[unsafe(no_mangle)]
pub extern "C" fn shapes_is_shared(image: &[u32], shape: u32) -> ReplyNumbers
    ensures { Tells image.now result (call_on image.now (ask shape is_shared)) }
{
    question_numbers(shapes::is_shared(image, shape))
}

#[unsafe(no_mangle)]
pub extern "C" fn shapes_transition_count(image: &[u32], shape: u32) -> ReplyNumbers
    ensures { Tells image.now result (call_on image.now (ask shape transitions_of)) }
{
    question_numbers(shapes::transition_count(image, shape))
}

#[unsafe(no_mangle)]
pub extern "C" fn shapes_property_count(image: &[u32], shape: u32) -> ReplyNumbers
    ensures { Tells image.now result (call_on image.now (ask shape properties_of)) }
{
    question_numbers(shapes::property_count(image, shape))
}

#[unsafe(no_mangle)]
pub extern "C" fn shapes_is_sound(image: &[u32]) -> ReplyNumbers
    ensures { Tells image.now result (tested image.now) }
{
    if shapes::is_sound(image) {
        return done_numbers(Ok(()));
    }
    done_numbers(Err(Refusal::Damaged))
}
