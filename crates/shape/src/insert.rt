// A key more, for a shape in either state.
ghost use Rattle.std.specs.Prelude.{◌≡◌, true, false, ◌≤◌};
ghost use Rattle.slot.specs.Attributes.{most_stored};
ghost use Rattle.store.specs.Model.{shape_at};
ghost use Rattle.store.specs.Layout.{parse};
ghost use Rattle.store.specs.Image.{Formed};
ghost use Rattle.rules.specs.declared.ChangeTransitionAction.TheVariants.{Nothing};
ghost use Rattle.rules.specs.Numbers.{good_key};
ghost use Rattle.rules.specs.Shapes.{has, entries};
ghost use Rattle.rules.specs.Unique.{inserted};
ghost use Rattle.rules.specs.Calls.{unheld, then_grant, perform, insert_key};
ghost use Rattle.rules.specs.Placing.{Places};
ghost use Rattle.rules.specs.Replies.{Answers, shape_reply};
ghost use Rattle.theorems.specs.Facts.{Sound};
ghost use Rattle.shape.specs.FullHolds.{full_refusal};

use crate::{has_key, is_unique};
use holds::{grant_placed, held, is_full};
use rules::{ChangeTransitionAction, GivenShape, Refusal, good_key};
use slot::SlotAttributes;
use store::image::{get_shape, key_limit};

#[tactic(auto, unfolding(rules::specs::Unique::inserted))]
fn place(image: &mut [u32], n: u32, key: u32, attributes: SlotAttributes) -> Result<u32, Refusal>
    requires formed { Formed image.old }
    requires sound { Sound (parse image.old) }
    requires n_value { unheld (parse image.old) n ≡ false }
    requires n_value_2 { has key (entries (parse image.old) (shape_at (parse image.old) n)) ≡ false }
    requires key_value { good_key key ≡ true }
    requires attributes_le_most_stored { attributes.0 ≤ most_stored }
    ensures { Places image.old image.new (inserted (parse image.old) n key attributes.0) result }
{
    if is_unique(image, n) {
        return unique_shape::insert_property_transition(image, n, key, attributes);
    }
    shared_shape::insert_property_transition(image, n, key, attributes)
}

// "KeysFull" comes before "HoldsFull".
fn refusal_of_full(image: &[u32], n: u32) -> Refusal
    requires formed { Formed image.now }
    requires n_value { unheld (parse image.now) n ≡ false }
    ensures { result ≡ full_refusal (parse image.now) n }
{
    let s = get_shape(image, n);
    if s.properties == key_limit(image) {
        return Refusal::KeysFull;
    }
    Refusal::HoldsFull
}

// An insert in a unique acts on the same number: its holds are looked at before it is written.
fn insert(
    image: &mut [u32],
    n: u32,
    key: u32,
    attributes: SlotAttributes,
) -> Result<GivenShape, Refusal>
    requires formed { Formed image.old }
    requires sound { Sound (parse image.old) }
    requires n_value { unheld (parse image.old) n ≡ false }
    requires n_value_2 { has key (entries (parse image.old) (shape_at (parse image.old) n)) ≡ false }
    requires key_value { good_key key ≡ true }
    requires attributes_le_most_stored { attributes.0 ≤ most_stored }
    ensures { Answers image.old image.new
        (then_grant Nothing (inserted (parse image.old) n key attributes.0)) (shape_reply result) }
{
    if is_unique(image, n) & is_full(image, n) {
        return Err(refusal_of_full(image, n));
    }
    let placed = place(image, n, key, attributes);
    grant_placed(image, placed, ChangeTransitionAction::Nothing)
}

#[tactic(auto, unfolding(rules::specs::Calls::perform))]
pub fn insert_property_transition(
    image: &mut [u32],
    n: u32,
    key: u32,
    attributes: u32,
) -> Result<GivenShape, Refusal>
    requires formed { Formed image.old }
    requires sound { Sound (parse image.old) }
    ensures { Answers image.old image.new
        (perform (parse image.old) (insert_key n key attributes)) (shape_reply result) }
{
    if !good_key(key) {
        return Err(Refusal::BadKey);
    }
    if attributes > SlotAttributes::MOST_STORED {
        return Err(Refusal::BadAttributes);
    }
    held(image, n)?;
    if has_key(image, n, key) {
        return Err(Refusal::Present);
    }
    insert(image, n, key, SlotAttributes(attributes as u8))
}
