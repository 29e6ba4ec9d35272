// The public calls: any image, any number, any list. Each tests the image first, and then refuses in document
// 01's order; a refusal leaves every lent word as it was.
#![tactic(auto, using(crate::specs::Called::call_lemmas))]

ghost use Rattle.std.specs.Prelude.{◌≡◌, true, false, IfErr, IfOk};
ghost use Rattle.rules.specs.declared.Refusal.TheVariants.{Damaged};
ghost use Rattle.rules.specs.Sound.{sound};
ghost use Rattle.rules.specs.Calls.{new_root, new_unique, insert_key, change_key, remove_key, change_prototype};
ghost use Rattle.rules.specs.Calls.{hold, release, previous, sweep, ask, lookup, keys_into, prototype_of};
ghost use Rattle.rules.specs.Calls.{is_shared, transitions_of, properties_of};
ghost use Rattle.rules.specs.Replies.{shape_reply, done_reply, sweep_reply, lookup_reply, keys_reply};
ghost use Rattle.rules.specs.Replies.{KeptIfRefused, number_reply};
ghost use Rattle.shapes.specs.Called.{Calls, Formats};

use rules::{FreedPlaces, GivenShape, Refusal};
use slot::Slot;
pub use soundness::is_sound;
use store::Limits;

// Damaged: "image not sound".
fn tested(image: &[u32]) -> Result<(), Refusal>
    ensures sound { IfOk result (λ _. sound image.now ≡ true) }
    ensures damaged { IfErr result (λ refusal. (sound image.now ≡ false) × (refusal ≡ Damaged)) }
{
    if !is_sound(image) {
        return Err(Refusal::Damaged);
    }
    Ok(())
}

// Zeroes the slice and writes the header. It alone takes an image that is not sound.
pub fn format(image: &mut [u32], limits: Limits) -> Result<(), Refusal>
    ensures { Formats limits image.old image.new (done_reply result) }
{
    if !header::format(image, limits) {
        return Err(Refusal::BadSize);
    }
    Ok(())
}

pub fn root(image: &mut [u32]) -> Result<GivenShape, Refusal>
    ensures { Calls image.old image.new new_root (shape_reply result) }
{
    tested(image)?;
    shape::root(image)
}

pub fn unique(image: &mut [u32]) -> Result<GivenShape, Refusal>
    ensures { Calls image.old image.new new_unique (shape_reply result) }
{
    tested(image)?;
    shape::unique(image)
}

pub fn insert(
    image: &mut [u32],
    shape: u32,
    key: u32,
    attributes: u32,
) -> Result<GivenShape, Refusal>
    ensures { Calls image.old image.new (insert_key shape key attributes) (shape_reply result) }
{
    tested(image)?;
    shape::insert::insert_property_transition(image, shape, key, attributes)
}

pub fn change(
    image: &mut [u32],
    shape: u32,
    key: u32,
    attributes: u32,
) -> Result<GivenShape, Refusal>
    ensures { Calls image.old image.new (change_key shape key attributes) (shape_reply result) }
{
    tested(image)?;
    shape::change::change_attributes_transition(image, shape, key, attributes)
}

pub fn remove(image: &mut [u32], shape: u32, key: u32) -> Result<GivenShape, Refusal>
    ensures { Calls image.old image.new (remove_key shape key) (shape_reply result) }
{
    tested(image)?;
    shape::remove::remove_property_transition(image, shape, key)
}

pub fn set_prototype(image: &mut [u32], shape: u32, to: u32) -> Result<GivenShape, Refusal>
    ensures { Calls image.old image.new (change_prototype shape to) (shape_reply result) }
{
    tested(image)?;
    shape::prototype::change_prototype_transition(image, shape, to)
}

pub fn hold(image: &mut [u32], shape: u32) -> Result<GivenShape, Refusal>
    ensures { Calls image.old image.new (hold shape) (shape_reply result) }
{
    tested(image)?;
    holds::hold(image, shape)
}

pub fn previous(image: &mut [u32], shape: u32) -> Result<GivenShape, Refusal>
    ensures { Calls image.old image.new (previous shape) (shape_reply result) }
{
    tested(image)?;
    holds::previous(image, shape)
}

pub fn release(image: &mut [u32], shape: u32) -> Result<(), Refusal>
    ensures { Calls image.old image.new (release shape) (done_reply result) }
{
    tested(image)?;
    holds::release(image, shape)
}

pub fn sweep(image: &mut [u32]) -> Result<FreedPlaces, Refusal>
    ensures { Calls image.old image.new sweep (sweep_reply result) }
{
    tested(image)?;
    sweep::sweep(image)
}

pub fn lookup(image: &[u32], shape: u32, key: u32) -> Result<Option<Slot>, Refusal>
    ensures { Calls image.now image.now (ask shape (lookup key)) (lookup_reply result) }
{
    tested(image)?;
    questions::lookup(image, shape, key)
}

pub fn prototype(image: &[u32], shape: u32) -> Result<u32, Refusal>
    ensures { Calls image.now image.now (ask shape prototype_of) (number_reply result) }
{
    tested(image)?;
    questions::prototype(image, shape)
}

pub fn is_shared(image: &[u32], shape: u32) -> Result<u32, Refusal>
    ensures { Calls image.now image.now (ask shape is_shared) (number_reply result) }
{
    tested(image)?;
    questions::is_shared(image, shape)
}

pub fn transition_count(image: &[u32], shape: u32) -> Result<u32, Refusal>
    ensures { Calls image.now image.now (ask shape transitions_of) (number_reply result) }
{
    tested(image)?;
    questions::transition_count(image, shape)
}

pub fn property_count(image: &[u32], shape: u32) -> Result<u32, Refusal>
    ensures { Calls image.now image.now (ask shape properties_of) (number_reply result) }
{
    tested(image)?;
    questions::property_count(image, shape)
}

// The list is written at the front of `out`; the rest of it stays.
pub fn keys(image: &[u32], shape: u32, out: &mut [u32]) -> Result<u32, Refusal>
    ensures calls { Calls image.now image.now (ask shape (keys_into out.old))
        (keys_reply out.new result) }
    ensures kept_if_refused { KeptIfRefused result out.old out.new }
{
    tested(image)?;
    questions::keys(image, shape, out)
}
