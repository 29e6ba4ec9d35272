// A key less, for a shape in either state.
ghost use Rattle.std.specs.Prelude.{◌≡◌, true, false};
ghost use Rattle.store.specs.Layout.{parse};
ghost use Rattle.store.specs.Image.{Formed};
ghost use Rattle.rules.specs.Shapes.{has};
ghost use Rattle.rules.specs.Unique.{removed};
ghost use Rattle.rules.specs.Calls.{unheld, perform, remove_key};
ghost use Rattle.rules.specs.Placing.{Places};
ghost use Rattle.rules.specs.Replies.{Answers, shape_reply};
ghost use Rattle.theorems.specs.Facts.{Sound};
ghost use Rattle.theorems.specs.Made.{SharedAt, entries_at};

use crate::{has_key, is_unique};
use holds::{grant_placed, held};
use rules::{ChangeTransitionAction, GivenShape, Refusal, good_key};

#[tactic(auto, unfolding(rules::specs::Unique::removed))]
fn place(image: &mut [u32], n: u32, key: u32) -> Result<u32, Refusal>
    requires formed { Formed image.old }
    requires sound { Sound (parse image.old) }
    requires n_value { unheld (parse image.old) n ≡ false }
    requires n_value_2 { SharedAt (parse image.old) n → has key (entries_at (parse image.old) n) ≡ true }
    ensures { Places image.old image.new (removed (parse image.old) n key) result }
{
    if is_unique(image, n) {
        return unique_shape::remove_property_transition(image, n, key);
    }
    shared_shape::remove_property_transition(image, n, key)
}

#[tactic(auto, unfolding(rules::specs::Calls::perform))]
pub fn remove_property_transition(
    image: &mut [u32],
    n: u32,
    key: u32,
) -> Result<GivenShape, Refusal>
    requires formed { Formed image.old }
    requires sound { Sound (parse image.old) }
    ensures { Answers image.old image.new
        (perform (parse image.old) (remove_key n key)) (shape_reply result) }
{
    if !good_key(key) {
        return Err(Refusal::BadKey);
    }
    held(image, n)?;
    if !is_unique(image, n) & !has_key(image, n, key) {
        return Err(Refusal::Absent);
    }
    let placed = place(image, n, key);
    grant_placed(image, placed, ChangeTransitionAction::Nothing)
}
