// Other attributes for a key, for a shape in either state.
ghost use Rattle.std.specs.Prelude.{◌≡◌, true, false, ◌≤◌};
ghost use Rattle.slot.specs.Attributes.{most_stored};
ghost use Rattle.store.specs.Model.{shape_at};
ghost use Rattle.store.specs.Layout.{parse};
ghost use Rattle.store.specs.Image.{Formed};
ghost use Rattle.rules.specs.Numbers.{good_key};
ghost use Rattle.rules.specs.Shapes.{has, attributes_in, entries};
ghost use Rattle.rules.specs.Unique.{changed};
ghost use Rattle.rules.specs.Calls.{unheld, then_grant, perform, change_key, action_for};
ghost use Rattle.rules.specs.Placing.{Places};
ghost use Rattle.rules.specs.Replies.{Answers, shape_reply};
ghost use Rattle.theorems.specs.Facts.{Sound};

use crate::is_unique;
use holds::{grant_placed, held, is_full};
use property_table::find;
use rules::{ChangeTransitionAction, GivenShape, Refusal, good_key};
use slot::SlotAttributes;

#[tactic(auto, unfolding(rules::specs::Unique::changed))]
fn place(image: &mut [u32], n: u32, key: u32, attributes: SlotAttributes) -> Result<u32, Refusal>
    requires formed { Formed image.old }
    requires sound { Sound (parse image.old) }
    requires n_value { unheld (parse image.old) n ≡ false }
    requires n_value_2 { has key (entries (parse image.old) (shape_at (parse image.old) n)) ≡ true }
    requires key_value { good_key key ≡ true }
    requires attributes_le_most_stored { attributes.0 ≤ most_stored }
    ensures { Places image.old image.new (changed (parse image.old) n key attributes.0) result }
{
    if is_unique(image, n) {
        return unique_shape::change_attributes_transition(image, n, key, attributes);
    }
    shared_shape::change_attributes_transition(image, n, key, attributes)
}

// "accessor to data is Remove, data to accessor Insert"
fn action_for(old: SlotAttributes, new: SlotAttributes) -> ChangeTransitionAction
    ensures { result ≡ action_for old.0 new.0 }
{
    if old.width_match(new) {
        return ChangeTransitionAction::Nothing;
    }
    if old.width() == 2 {
        return ChangeTransitionAction::Remove;
    }
    ChangeTransitionAction::Insert
}

// At equal width a unique acts on the same number: its holds are looked at before it is written.
fn change(
    image: &mut [u32],
    n: u32,
    key: u32,
    old: SlotAttributes,
    attributes: SlotAttributes,
) -> Result<GivenShape, Refusal>
    requires formed { Formed image.old }
    requires sound { Sound (parse image.old) }
    requires n_value { unheld (parse image.old) n ≡ false }
    requires n_value_2 { has key (entries (parse image.old) (shape_at (parse image.old) n)) ≡ true }
    requires key_value { good_key key ≡ true }
    requires attributes_le_most_stored { attributes.0 ≤ most_stored }
    requires value { old.0 ≡ attributes_in key (entries (parse image.old) (shape_at (parse image.old) n)) }
    ensures { Answers image.old image.new
        (then_grant (action_for old.0 attributes.0) (changed (parse image.old) n key attributes.0)) (shape_reply result) }
{
    if is_unique(image, n) & old.width_match(attributes) & is_full(image, n) {
        return Err(Refusal::HoldsFull);
    }
    let placed = place(image, n, key, attributes);
    grant_placed(image, placed, action_for(old, attributes))
}

#[tactic(auto, unfolding(rules::specs::Calls::perform))]
pub fn change_attributes_transition(
    image: &mut [u32],
    n: u32,
    key: u32,
    attributes: u32,
) -> Result<GivenShape, Refusal>
    requires formed { Formed image.old }
    requires sound { Sound (parse image.old) }
    ensures { Answers image.old image.new
        (perform (parse image.old) (change_key n key attributes)) (shape_reply result) }
{
    if !good_key(key) {
        return Err(Refusal::BadKey);
    }
    if attributes > SlotAttributes::MOST_STORED {
        return Err(Refusal::BadAttributes);
    }
    held(image, n)?;
    let property = find(image, n, key).ok_or(Refusal::Absent)?;
    change(
        image,
        n,
        key,
        property.slot.attributes,
        SlotAttributes(attributes as u8),
    )
}
