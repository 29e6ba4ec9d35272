// Holds of shapes: which shapes a call may name, one hold more, one hold less.
#![tactic(auto)]

ghost use Rattle.std.specs.Prelude.{◌≡◌, not, leb, length};
ghost use Rattle.store.specs.Model.{shape_at};
ghost use Rattle.store.specs.Layout.{parse};
ghost use Rattle.store.specs.Image.{Formed, Place};
ghost use Rattle.rules.specs.Calls.{unheld, grant, perform, hold, previous, release};
ghost use Rattle.rules.specs.Replies.{Answers, shape_reply, done_reply};
ghost use Rattle.theorems.specs.Facts.{Sound};
ghost use Rattle.holds.specs.Granted.{InPlace, grant_placed, held};

use rules::{ChangeTransitionAction, GivenShape, Refusal};
use store::image::{get_shape, put_shape, shape_count};
use store::{Shape, ShapeState};

const MOST_HOLDS: u32 = 65535;

pub fn is_held(image: &[u32], n: u32) -> bool
    requires { Formed image.now }
    ensures { result ≡ not (unheld (parse image.now) n) }
{
    if n == 0 {
        return false;
    }
    if n > shape_count(image) {
        return false;
    }
    let s = get_shape(image, n);
    s.state != ShapeState::FREE && s.holds != 0
}

// The shape that a call names.
pub fn held(image: &[u32], n: u32) -> Result<Shape, Refusal>
    requires { Formed image.now }
    ensures { result ≡ held (parse image.now) n }
{
    if !is_held(image, n) {
        return Err(Refusal::NoShape);
    }
    Ok(get_shape(image, n))
}

pub fn is_full(image: &[u32], n: u32) -> bool
    requires formed { Formed image.now }
    requires place { Place (length (parse image.now).shapes) n }
    ensures { result ≡ leb 65535 (shape_at (parse image.now) n).holds }
{
    let s = get_shape(image, n);
    s.holds >= MOST_HOLDS
}

// "A call that returns a shape adds one hold to it".
pub fn grant(
    image: &mut [u32],
    n: u32,
    action: ChangeTransitionAction,
) -> Result<GivenShape, Refusal>
    requires formed { Formed image.old }
    requires place { Place (length (parse image.old).shapes) n }
    ensures { Answers image.old image.new
        (grant action (parse image.old, n)) (shape_reply result) }
{
    if is_full(image, n) {
        return Err(Refusal::HoldsFull);
    }
    let mut s = get_shape(image, n);
    let transitions = s.transitions;
    s.holds += 1;
    put_shape(image, n, s);
    Ok(GivenShape {
        shape: n,
        action,
        transitions,
    })
}

// A refusal is handed on.
pub fn grant_placed(
    image: &mut [u32],
    placed: Result<u32, Refusal>,
    action: ChangeTransitionAction,
) -> Result<GivenShape, Refusal>
    requires formed { Formed image.old }
    requires in_place { InPlace (parse image.old) placed }
    ensures { Answers image.old image.new
        (grant_placed action (parse image.old) placed) (shape_reply result) }
{
    grant(image, placed?, action)
}

#[tactic(auto, unfolding(rules::specs::Calls::perform))]
pub fn hold(image: &mut [u32], n: u32) -> Result<GivenShape, Refusal>
    requires { Formed image.old }
    ensures { Answers image.old image.new
        (perform (parse image.old) (hold n)) (shape_reply result) }
{
    held(image, n)?;
    grant(image, n, ChangeTransitionAction::Nothing)
}

// "hold and previous (0, no hold, at a root or unique)"
#[tactic(auto, unfolding(rules::specs::Calls::perform))]
pub fn previous(image: &mut [u32], n: u32) -> Result<GivenShape, Refusal>
    requires formed { Formed image.old }
    requires sound { Sound (parse image.old) }
    ensures { Answers image.old image.new
        (perform (parse image.old) (previous n)) (shape_reply result) }
{
    let s = held(image, n)?;
    if s.previous == 0 {
        return Ok(GivenShape {
            shape: 0,
            action: ChangeTransitionAction::Nothing,
            transitions: 0,
        });
    }
    grant(image, s.previous, ChangeTransitionAction::Nothing)
}

// "Release takes one."
#[tactic(auto, unfolding(rules::specs::Calls::perform))]
pub fn release(image: &mut [u32], n: u32) -> Result<(), Refusal>
    requires { Formed image.old }
    ensures { Answers image.old image.new
        (perform (parse image.old) (release n)) (done_reply result) }
{
    let mut s = held(image, n)?;
    s.holds -= 1;
    put_shape(image, n, s);
    Ok(())
}
