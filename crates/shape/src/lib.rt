// The calls that change a shape, in either state, and new shapes. Each tests in document 01's order all that it
// may refuse, before a word is written.
#![tactic(auto, using(holds::specs::Granted::held_place))]

ghost use Rattle.std.specs.Prelude.{◌≡◌, false};
ghost use Rattle.store.specs.Model.{shape_at};
ghost use Rattle.store.specs.Layout.{parse};
ghost use Rattle.store.specs.Image.{Formed};
ghost use Rattle.rules.specs.Shapes.{has, unique, entries};
ghost use Rattle.rules.specs.Calls.{unheld, perform, new_root, new_unique};
ghost use Rattle.rules.specs.Replies.{Answers, shape_reply};
ghost use Rattle.theorems.specs.Facts.{Sound};

use fresh::{new_root, new_unique};
use holds::grant_placed;
use property_table::find;
use rules::{ChangeTransitionAction, GivenShape, Refusal};
use store::ShapeState;
use store::image::get_shape;

pub mod change;
pub mod insert;
pub mod prototype;
pub mod remove;

// Each change asks it, and then makes the call of either state. The two calls of a change ask other facts of the image:
// one function that took them as closures would have to state both.
fn is_unique(image: &[u32], n: u32) -> bool
    requires formed { Formed image.now }
    requires n_value { unheld (parse image.now) n ≡ false }
    ensures { result ≡ unique (shape_at (parse image.now) n) }
{
    let s = get_shape(image, n);
    s.state == ShapeState::UNIQUE
}

fn has_key(image: &[u32], n: u32, key: u32) -> bool
    requires formed { Formed image.now }
    requires sound { Sound (parse image.now) }
    requires n_value { unheld (parse image.now) n ≡ false }
    ensures { result ≡ has key (entries (parse image.now) (shape_at (parse image.now) n)) }
{
    find(image, n, key).is_some()
}

#[tactic(auto, unfolding(rules::specs::Calls::perform))]
pub fn root(image: &mut [u32]) -> Result<GivenShape, Refusal>
    requires formed { Formed image.old }
    requires sound { Sound (parse image.old) }
    ensures { Answers image.old image.new
        (perform (parse image.old) new_root) (shape_reply result) }
{
    let placed = new_root(image);
    grant_placed(image, placed, ChangeTransitionAction::Nothing)
}

#[tactic(auto, unfolding(rules::specs::Calls::perform))]
pub fn unique(image: &mut [u32]) -> Result<GivenShape, Refusal>
    requires formed { Formed image.old }
    requires sound { Sound (parse image.old) }
    ensures { Answers image.old image.new
        (perform (parse image.old) new_unique) (shape_reply result) }
{
    let placed = new_unique(image);
    grant_placed(image, placed, ChangeTransitionAction::Nothing)
}
