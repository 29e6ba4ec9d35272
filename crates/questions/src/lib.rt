// Questions of a held shape: no word of the image is written.
#![tactic(auto, unfolding(rules::specs::Calls::perform))]

ghost use Rattle.store.specs.Layout.{parse};
ghost use Rattle.store.specs.Image.{Formed};
ghost use Rattle.rules.specs.Calls.{ask, lookup, keys_into, prototype_of, is_shared, transitions_of, properties_of};
ghost use Rattle.rules.specs.Calls.{perform};
ghost use Rattle.rules.specs.Replies.{Answers, lookup_reply, keys_reply, KeptIfRefused, number_reply};
ghost use Rattle.theorems.specs.Facts.{Sound};

use holds::held;
use key_position::FirstEntries;
use property_table::{find, key_count};
use rules::{Refusal, good_key};
use slot::Slot;
use store::ShapeState;

// "Lookup answers the slot or Nothing."
pub fn lookup(image: &[u32], n: u32, key: u32) -> Result<Option<Slot>, Refusal>
    requires formed { Formed image.now }
    requires sound { Sound (parse image.now) }
    ensures { Answers image.now image.now
        (perform (parse image.now) (ask n (lookup key))) (lookup_reply result) }
{
    if !good_key(key) {
        return Err(Refusal::BadKey);
    }
    held(image, n)?;
    let Some(property) = find(image, n, key) else {
        return Ok(None);
    };
    Ok(Some(property.slot))
}

// "written at the front of a lent slice, the rest of it unchanged"
pub fn keys(image: &[u32], n: u32, out: &mut [u32]) -> Result<u32, Refusal>
    requires formed { Formed image.now }
    requires sound { Sound (parse image.now) }
    ensures answers { Answers image.now image.now
        (perform (parse image.now) (ask n (keys_into out.old)))
        (keys_reply out.new result) }
    ensures kept_if_refused { KeptIfRefused result out.old out.new }
{
    let s = held(image, n)?;
    let own = FirstEntries::of(s);
    if key_count(image, own) as usize > out.len() {
        return Err(Refusal::OutShort);
    }
    Ok(property_table::keys(image, own, out))
}

pub fn prototype(image: &[u32], n: u32) -> Result<u32, Refusal>
    requires { Formed image.now }
    ensures { Answers image.now image.now
        (perform (parse image.now) (ask n prototype_of)) (number_reply result) }
{
    Ok(held(image, n)?.prototype)
}

// 1 for a shared shape, 0 for a unique.
pub fn is_shared(image: &[u32], n: u32) -> Result<u32, Refusal>
    requires { Formed image.now }
    ensures { Answers image.now image.now
        (perform (parse image.now) (ask n is_shared)) (number_reply result) }
{
    let s = held(image, n)?;
    Ok(u32::from(s.state == ShapeState::SHARED))
}

pub fn transition_count(image: &[u32], n: u32) -> Result<u32, Refusal>
    requires { Formed image.now }
    ensures { Answers image.now image.now
        (perform (parse image.now) (ask n transitions_of)) (number_reply result) }
{
    Ok(held(image, n)?.transitions)
}

pub fn property_count(image: &[u32], n: u32) -> Result<u32, Refusal>
    requires { Formed image.now }
    ensures { Answers image.now image.now
        (perform (parse image.now) (ask n properties_of)) (number_reply result) }
{
    Ok(held(image, n)?.properties)
}
