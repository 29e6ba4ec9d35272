// Answers and shapes against the oracle's numbers, in the order of vectors/README.md.
use crate::image::Answer;
use crate::numbers::MOST_NUMBERS;
use crate::run::Run;
use replies::{done_numbers, shape_numbers};
use rules::{ChangeTransitionAction, GivenShape, Refusal};

const BAD_LINE: u32 = 14;

fn refusal_number(refusal: Refusal) -> u32 {
    done_numbers(Err(refusal)).refusal
}

fn is_number(reply: Result<u32, Refusal>, number: u32) -> bool {
    reply.is_ok_and(|n| n == number)
}

impl Run {
    // An entry is a key, its attributes and its slot index.
    fn entry_agrees(&self, shape: u32, entry: &[u32; 3]) -> bool {
        let [key, attributes, index] = *entry;
        match shapes::lookup(self.image.as_slice(), shape, key) {
            Ok(Some(slot)) => slot.index.0 == index && u32::from(slot.attributes.0) == attributes,
            _ => false,
        }
    }

    // "in table order", which is the order of the slot indexes.
    fn entries_agree(&self, shape: u32, entries: &[u32]) -> bool {
        let (entries, _) = entries.as_chunks::<3>();
        entries.is_sorted_by(|before, after| before[2] < after[2])
            && entries.iter().all(|entry| self.entry_agrees(shape, entry))
    }

    fn keys_agree(&self, shape: u32, keys: &[u32]) -> bool {
        let mut list = [0; MOST_NUMBERS];
        let Ok(count) = shapes::keys(self.image.as_slice(), shape, &mut list) else {
            return false;
        };
        list.get(..count as usize)
            .is_some_and(|listed| listed == keys)
    }

    // Shared or unique, transition count, action, prototype, same as, number of entries; the entries; the key list.
    pub fn shape_agrees(&self, handle: u32, given: GivenShape, numbers: &[u32]) -> bool {
        let [
            shared,
            transitions,
            action,
            prototype,
            same_as,
            count,
            rest @ ..,
        ] = numbers
        else {
            return false;
        };
        let Some((entries, keys)) = rest.split_at_checked(3 * *count as usize) else {
            return false;
        };
        let image = self.image.as_slice();
        let shape = given.shape;
        let told = shape_numbers(Ok(given));
        told.second == *action
            && told.third == *transitions
            && is_number(shapes::is_shared(image, shape), *shared)
            && is_number(shapes::prototype(image, shape), *prototype)
            && is_number(shapes::property_count(image, shape), *count)
            && self.handles.same_as(handle, shape) == *same_as
            && self.entries_agree(shape, entries)
            && self.keys_agree(shape, keys)
    }

    // The handle that a shape makes is the next one.
    pub fn answer_agrees(&self, numbers: &[u32]) -> bool {
        match (self.answer, numbers) {
            (Answer::Gives(Ok(given)), [0, shape @ ..]) => {
                self.shape_agrees(self.handles.next(), given, shape)
            }
            (Answer::Frees(Ok(freed)), [0, shapes, tables]) => {
                freed.shapes == *shapes && freed.tables == *tables
            }
            (Answer::Done(Ok(())), [0]) => true,
            (
                Answer::Gives(Err(refusal))
                | Answer::Frees(Err(refusal))
                | Answer::Done(Err(refusal)),
                [number],
            ) => refusal_number(refusal) == *number,
            (Answer::BadLine, [number]) => BAD_LINE == *number,
            _ => false,
        }
    }

    pub fn live_agrees(&self, numbers: &[u32]) -> bool {
        let [handle, numbers @ ..] = numbers else {
            return false;
        };
        let shape = self.handles.shape(*handle);
        let given = GivenShape {
            shape,
            action: ChangeTransitionAction::Nothing,
            transitions: shapes::transition_count(self.image.as_slice(), shape).unwrap_or(0),
        };
        self.shape_agrees(*handle, given, numbers)
    }
}
