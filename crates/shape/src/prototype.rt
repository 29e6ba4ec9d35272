// Another prototype, for a shape in either state.
ghost use Rattle.std.specs.Prelude.{◌≡◌, false};
ghost use Rattle.store.specs.Layout.{parse};
ghost use Rattle.store.specs.Image.{Formed};
ghost use Rattle.rules.specs.Unique.{rebased};
ghost use Rattle.rules.specs.Calls.{unheld, perform, change_prototype};
ghost use Rattle.rules.specs.Placing.{Places};
ghost use Rattle.rules.specs.Replies.{Answers, shape_reply};
ghost use Rattle.theorems.specs.Facts.{Sound};

use crate::is_unique;
use holds::{grant_placed, held};
use rules::{ChangeTransitionAction, GivenShape, Refusal};

#[tactic(auto, unfolding(rules::specs::Unique::rebased))]
fn place(image: &mut [u32], n: u32, to: u32) -> Result<u32, Refusal>
    requires formed { Formed image.old }
    requires sound { Sound (parse image.old) }
    requires n_value { unheld (parse image.old) n ≡ false }
    ensures { Places image.old image.new (rebased (parse image.old) n to) result }
{
    if is_unique(image, n) {
        return unique_shape::change_prototype_transition(image, n, to);
    }
    shared_shape::change_prototype_transition(image, n, to)
}

#[tactic(auto, unfolding(rules::specs::Calls::perform))]
pub fn change_prototype_transition(
    image: &mut [u32],
    n: u32,
    to: u32,
) -> Result<GivenShape, Refusal>
    requires formed { Formed image.old }
    requires sound { Sound (parse image.old) }
    ensures { Answers image.old image.new
        (perform (parse image.old) (change_prototype n to)) (shape_reply result) }
{
    held(image, n)?;
    let placed = place(image, n, to);
    grant_placed(image, placed, ChangeTransitionAction::Nothing)
}
