// "Each line is answered by four numbers", and so is each call from C: which they are.
#![tactic(auto)]

ghost use Rattle.std.specs.Prelude.{◌≡◌, [], ◌∷◌};
ghost use Rattle.rules.specs.Refusals.{refusal_number};
ghost use Rattle.rules.specs.Runner.{action_number, four_numbers};
ghost use Rattle.rules.specs.Replies.{shape_reply, done_reply, sweep_reply, lookup_reply, keys_reply, number_reply};
ghost use Rattle.replies.specs.Numbers.{numbers_of};

use rules::{ChangeTransitionAction, FreedPlaces, GivenShape, Refusal};
use slot::Slot;

// "refusal or 0, shape, action .., transition count"; other calls have other numbers after the refusal.
#[repr(C)]
#[derive(Clone, Copy, Default)]
pub struct ReplyNumbers {
    pub refusal: u32,
    pub first: u32,
    pub second: u32,
    pub third: u32,
}

// No `From` for u32: it would have to stand in `rules`, which knows no numbers of a reply.
fn refusal_number(r: Refusal) -> u32
    ensures { result ≡ refusal_number r }
{
    match r {
        Refusal::Damaged => 1,
        Refusal::BadKey => 2,
        Refusal::BadAttributes => 3,
        Refusal::NoShape => 4,
        Refusal::Present => 5,
        Refusal::Absent => 6,
        Refusal::KeysFull => 7,
        Refusal::ShapesFull => 8,
        Refusal::TablesFull => 9,
        Refusal::EdgesFull => 10,
        Refusal::HoldsFull => 11,
        Refusal::BadSize => 12,
        Refusal::OutShort => 13,
    }
}

fn action_number(action: ChangeTransitionAction) -> u32
    ensures { result ≡ action_number action }
{
    match action {
        ChangeTransitionAction::Nothing => 0,
        ChangeTransitionAction::Remove => 1,
        ChangeTransitionAction::Insert => 2,
    }
}

fn refused(r: Refusal) -> ReplyNumbers
    ensures { numbers_of result ≡ refusal_number r ∷ 0 ∷ 0 ∷ 0 ∷ [] }
{
    ReplyNumbers {
        refusal: refusal_number(r),
        ..ReplyNumbers::default()
    }
}

fn one_number(n: u32) -> ReplyNumbers
    ensures { numbers_of result ≡ 0 ∷ n ∷ 0 ∷ 0 ∷ [] }
{
    ReplyNumbers {
        first: n,
        ..ReplyNumbers::default()
    }
}

pub fn shape_numbers(reply: Result<GivenShape, Refusal>) -> ReplyNumbers
    ensures { numbers_of result ≡ four_numbers (shape_reply reply) }
{
    match reply {
        Ok(g) => ReplyNumbers {
            refusal: 0,
            first: g.shape,
            second: action_number(g.action),
            third: g.transitions,
        },
        Err(r) => refused(r),
    }
}

pub fn done_numbers(reply: Result<(), Refusal>) -> ReplyNumbers
    ensures { numbers_of result ≡ four_numbers (done_reply reply) }
{
    match reply {
        Ok(()) => one_number(0),
        Err(r) => refused(r),
    }
}

pub fn sweep_numbers(reply: Result<FreedPlaces, Refusal>) -> ReplyNumbers
    ensures { numbers_of result ≡ four_numbers (sweep_reply reply) }
{
    match reply {
        Ok(f) => ReplyNumbers {
            first: f.shapes,
            second: f.tables,
            ..ReplyNumbers::default()
        },
        Err(r) => refused(r),
    }
}

pub fn lookup_numbers(reply: Result<Option<Slot>, Refusal>) -> ReplyNumbers
    ensures { numbers_of result ≡ four_numbers (lookup_reply reply) }
{
    match reply {
        Ok(Some(slot)) => ReplyNumbers {
            refusal: 0,
            first: 1,
            second: slot.index.0,
            third: slot.attributes.0 as u32,
        },
        Ok(None) => one_number(0),
        Err(r) => refused(r),
    }
}

// The list itself stands in the lent slice: its count is told as the answer to a question is.
pub fn keys_numbers(reply: Result<u32, Refusal>) -> ReplyNumbers
    ensures { numbers_of result ≡ four_numbers (keys_reply [] reply) }
{
    question_numbers(reply)
}

pub fn question_numbers(reply: Result<u32, Refusal>) -> ReplyNumbers
    ensures { numbers_of result ≡ four_numbers (number_reply reply) }
{
    match reply {
        Ok(n) => one_number(n),
        Err(r) => refused(r),
    }
}
