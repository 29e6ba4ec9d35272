// Document 01's lesson sheet through the public calls. A line of the output is to be read beside the document's: the
// action, and the shape that the steps lead to, with its keys in the order of the key list, each with its attributes
// and its slot index. Then the refusals that no short step file meets.
#![tactic(auto)]

use replies::done_numbers;
use rules::{ChangeTransitionAction, GivenShape, Refusal};
use std::{fmt, io};
use store::Limits;

const A: u32 = 1;

const B: u32 = 2;

const C: u32 = 3;

// Kind 1, symbols.
const S: u32 = 1 << 30;

// Kind 2, indexes.
const INDEX_5: u32 = (2 << 30) + 5;

// The first shape's state and counters, behind the header's 8 words.
const ROOT_STATE: usize = 8;

const ROOT_PROPERTY_COUNTER: usize = 8 + 8;

const ROOT_PROTOTYPE_COUNTER: usize = 8 + 9;

// Room for the longest lesson: a root, 1,024 steps and a unique shape; and for 256 children with a table each.
const LIMITS: Limits = Limits {
    S: 1026,
    T: 256,
    K: 4,
    E: 1024,
};

// A step of a lesson: a key, and the attributes that it gets; or a prototype.
#[derive(Clone, Copy)]
enum Step {
    Insert(u32, u32),
    Change(u32, u32),
    Remove(u32),
    Prototype(u32),
}

// What ends the sheet before its end: a refusal, by its number, or a line that is not printed.
#[derive(Drop)]
enum Failure {
    Refused(u32),
    Unprinted(io::Error),
}

// The program ends with it: a failed write is told as any program's.
impl fmt::Debug for Failure {
    fn fmt<W: fmt::Write>(&self, f: &mut fmt::Formatter<W>) -> fmt::Result {
        match self {
            Failure::Refused(number) => write!(f, "refusal {number}"),
            Failure::Unprinted(error) => write!(f, "{error:?}"),
        }
    }
}

impl From<Refusal> for Failure {
    fn from(refusal: Refusal) -> Failure {
        Failure::Refused(done_numbers(Err(refusal)).refusal)
    }
}

impl From<io::Error> for Failure {
    fn from(error: io::Error) -> Failure {
        Failure::Unprinted(error)
    }
}

fn action_name(action: ChangeTransitionAction) -> &'static str {
    match action {
        ChangeTransitionAction::Nothing => "Nothing",
        ChangeTransitionAction::Remove => "Remove",
        ChangeTransitionAction::Insert => "Insert",
    }
}

fn key_name(key: u32) -> char {
    match key {
        A => 'a',
        B => 'b',
        C => 'c',
        S => 's',
        _ => '?',
    }
}

// The image that the lessons work on, and where they are printed.
#[derive(Drop)]
struct Sheet<'a, P: Print> {
    rt: &'a P,
    image: [u32; 18716],
}

// Steps.
impl<P: Print> Sheet<'_, P> {
    fn new_root(&mut self) -> Result<GivenShape, Refusal> {
        shapes::format(&mut self.image, LIMITS)?;
        shapes::root(&mut self.image)
    }

    fn new_unique(&mut self) -> Result<GivenShape, Refusal> {
        shapes::format(&mut self.image, LIMITS)?;
        shapes::unique(&mut self.image)
    }

    fn take_step(&mut self, shape: u32, step: Step) -> Result<GivenShape, Refusal> {
        let image = &mut self.image;
        match step {
            Step::Insert(key, attributes) => shapes::insert(image, shape, key, attributes),
            Step::Change(key, attributes) => shapes::change(image, shape, key, attributes),
            Step::Remove(key) => shapes::remove(image, shape, key),
            Step::Prototype(to) => shapes::set_prototype(image, shape, to),
        }
    }

    // Each step from the shape that the one before has given.
    fn walk(&mut self, from: GivenShape, steps: &[Step]) -> Result<GivenShape, Refusal> {
        let mut given = from;
        for step in steps {
            given = self.take_step(given.shape, *step)?;
        }
        Ok(given)
    }

    // As many steps, each to another prototype.
    fn long_trail(&mut self, steps: u32) -> Result<GivenShape, Refusal> {
        let mut given = self.new_root()?;
        for step in 1..=steps {
            given = self.take_step(given.shape, Step::Prototype(step))?;
        }
        Ok(given)
    }
}

// Lines.
impl<P: Print> Sheet<'_, P> {
    fn print_key(&self, shape: u32, key: u32) -> Result<(), Failure> {
        if let Some(slot) = shapes::lookup(&self.image, shape, key)? {
            let name = key_name(key);
            let attributes = slot.attributes.0;
            let index = slot.index.0;
            print!(self.rt; ", {name} {attributes} at {index}")?;
        }
        Ok(())
    }

    fn print_keys(&self, shape: u32) -> Result<(), Failure> {
        let mut keys = [0; 4];
        let count = shapes::keys(&self.image, shape, &mut keys)?;
        for key in keys.iter().take(count as usize) {
            self.print_key(shape, *key)?;
        }
        Ok(())
    }

    fn print_shape(&self, shape: u32) -> Result<(), Failure> {
        let state = match shapes::is_shared(&self.image, shape)? {
            1 => "shared",
            _ => "unique",
        };
        let count = shapes::transition_count(&self.image, shape)?;
        let prototype = shapes::prototype(&self.image, shape)?;
        print!(self.rt; "shape {shape} {state}, count {count}, prototype {prototype}")?;
        self.print_keys(shape)?;
        println!(self.rt)?;
        Ok(())
    }

    fn print_counters(&self, name: &str) -> io::Result<()> {
        let property = self.image[ROOT_PROPERTY_COUNTER];
        let prototype = self.image[ROOT_PROTOTYPE_COUNTER];
        println!(self.rt; "{name}: counters {property} and {prototype}")
    }

    // By its number: 0 where a call that was to refuse has not.
    fn print_refusal<T: Drop>(&self, event: &str, reply: Result<T, Refusal>) -> io::Result<()> {
        let number = done_numbers(reply.map(|_| ())).refusal;
        println!(self.rt; "{event}: refusal {number}")
    }
}

// Lessons.
impl<P: Print> Sheet<'_, P> {
    // The shape that some steps lead to, printed under the lesson's name.
    fn lesson(
        &mut self,
        name: &str,
        from: GivenShape,
        steps: &[Step],
    ) -> Result<GivenShape, Failure> {
        let given = self.walk(from, steps)?;
        let action = action_name(given.action);
        print!(self.rt; "{name}: {action}, ")?;
        self.print_shape(given.shape)?;
        Ok(given)
    }

    fn lessons_1_to_4(&mut self) -> Result<(), Failure> {
        let root = self.new_root()?;
        let steps = [Step::Insert(A, 7), Step::Insert(B, 14)];
        let before_c = self.lesson("1, before c", root, &steps)?;
        let one = self.lesson("1", before_c, &[Step::Insert(C, 7)])?;
        self.lesson("2", one, &[Step::Remove(B)])?;
        self.lesson("3", one, &[Step::Change(B, 7)])?;
        let changed = self.lesson("4", one, &[Step::Change(A, 5)])?;
        self.lesson("4, then", changed, &[Step::Remove(C)])?;
        Ok(())
    }

    fn lesson_5(&mut self) -> Result<(), Failure> {
        let root = self.new_root()?;
        let with_b = self.walk(root, &[Step::Insert(A, 7), Step::Insert(B, 7)])?;
        self.lesson("5", with_b, &[Step::Change(B, 5), Step::Remove(A)])?;
        Ok(())
    }

    fn lesson_6(&mut self) -> Result<(), Failure> {
        let root = self.new_root()?;
        let steps = [Step::Insert(A, 7), Step::Insert(B, 7), Step::Prototype(9)];
        let with_9 = self.walk(root, &steps)?;
        let steps = [Step::Insert(C, 7), Step::Prototype(0), Step::Remove(A)];
        self.lesson("6", with_9, &steps)?;
        Ok(())
    }

    fn lesson_7(&mut self) -> Result<(), Failure> {
        let unique = self.new_unique()?;
        let steps = [Step::Insert(A, 14), Step::Insert(B, 7), Step::Insert(C, 7)];
        let old = self.lesson("7", unique, &steps)?;
        self.lesson("7, then", old, &[Step::Remove(A)])?;
        print!(self.rt; "7, the old one: ")?;
        self.print_shape(old.shape)
    }

    fn lesson_8(&mut self) -> Result<(), Failure> {
        let unique = self.new_unique()?;
        let steps = [Step::Insert(A, 7), Step::Insert(B, 7), Step::Change(A, 14)];
        self.lesson("8", unique, &steps)?;
        Ok(())
    }

    fn lesson_9(&mut self) -> Result<(), Failure> {
        let root = self.new_root()?;
        let steps = [
            Step::Insert(S, 7),
            Step::Insert(A, 7),
            Step::Insert(INDEX_5, 7),
            Step::Insert(B, 7),
        ];
        self.lesson("9", root, &steps)?;
        Ok(())
    }

    fn lesson_10(&mut self) -> Result<(), Failure> {
        let before = self.long_trail(1022)?;
        let last_shared = self.lesson("10, step 1023", before, &[Step::Prototype(1023)])?;
        self.lesson("10, step 1024", last_shared, &[Step::Prototype(1024)])?;
        Ok(())
    }

    // The 256th child of one kind.
    fn lesson_11<F: Fn(u32) -> Step>(&mut self, name: &str, step: F) -> Result<(), Failure>
        requires { F.IsAlwaysCallable step }
    {
        let root = self.new_root()?;
        for child in 1..=255 {
            self.take_step(root.shape, step(child))?;
        }
        self.print_counters(name)?;
        self.take_step(root.shape, step(256))?;
        self.print_counters(name)?;
        Ok(())
    }
}

// Refusals.
impl<P: Print> Sheet<'_, P> {
    fn bad_size(&mut self) -> io::Result<()> {
        let no_edges = Limits { E: 0, ..LIMITS };
        let reply = shapes::format(&mut self.image, no_edges);
        self.print_refusal("no edges", reply)
    }

    fn out_short(&mut self) -> Result<(), Failure> {
        let root = self.new_root()?;
        let given = self.walk(root, &[Step::Insert(A, 7), Step::Insert(B, 7)])?;
        let reply = shapes::keys(&self.image, given.shape, &mut [0]);
        self.print_refusal("a list of two keys into one word", reply)?;
        Ok(())
    }

    fn damaged(&mut self) -> Result<(), Failure> {
        let root = self.new_root()?;
        // There is no state 3.
        self.image[ROOT_STATE] = 3;
        let reply = shapes::prototype(&self.image, root.shape);
        self.print_refusal("a damaged image", reply)?;
        Ok(())
    }
}

fn main(rt: HostRuntime) -> Result<(), Failure> {
    let mut sheet = Sheet {
        rt: &rt,
        image: [0; 18716],
    };
    sheet.lessons_1_to_4()?;
    sheet.lesson_5()?;
    sheet.lesson_6()?;
    sheet.lesson_7()?;
    sheet.lesson_8()?;
    sheet.lesson_9()?;
    sheet.lesson_10()?;
    sheet.lesson_11("11, keys", |key| Step::Insert(key, 7))?;
    sheet.lesson_11("11, prototypes", Step::Prototype)?;
    sheet.bad_size()?;
    sheet.out_short()?;
    sheet.damaged()
}
