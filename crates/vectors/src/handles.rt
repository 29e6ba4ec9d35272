// The shapes that handles stand for. Handles are 1, 2, 3 and so on.

const MOST_HANDLES: u32 = 1036;

#[derive(Clone, Copy)]
pub struct Handles {
    // At a handle, the shape number that it stands for: 0, which every call refuses with 4, where it was never given
    // or is released.
    shapes: [u32; MOST_HANDLES as usize],
    given: u32,
}

impl Handles {
    pub fn new() -> Handles {
        Handles {
            shapes: [0; MOST_HANDLES as usize],
            given: 0,
        }
    }

    pub fn shape(&self, handle: u32) -> u32 {
        self.shapes.get(handle as usize).copied().unwrap_or(0)
    }

    // The handle that is given next.
    pub fn next(&self) -> u32 {
        self.given.wrapping_add(1)
    }

    pub fn give(&mut self, shape: u32) {
        self.given = self.next();
        self.put(self.given, shape);
    }

    pub fn release(&mut self, handle: u32) {
        self.put(handle, 0);
    }

    // "the lowest live handle before this one that is the very same shape, 0 if there is none"
    pub fn same_as(&self, handle: u32, shape: u32) -> u32 {
        (1..handle.min(MOST_HANDLES))
            .find(|other| self.shape(*other) == shape)
            .unwrap_or(0)
    }

    fn put(&mut self, handle: u32, shape: u32) {
        if let Some(place) = self.shapes.get_mut(handle as usize) {
            *place = shape;
        }
    }
}
