// Marks: a byte for each place, 0 where the place is not marked. A place outside is not marked.
ghost use Rattle.std.specs.Prelude.{◌≡◌, set};
ghost use Rattle.sweep.specs.Marks.{marked};

#[tactic(auto, unfolding(crate::specs::Marks::marked))]
pub fn is_marked(marks: &[u8], n: u32) -> bool
    ensures { result ≡ marked marks.now n }
{
    marks.get(n as usize).copied().unwrap_or(0) != 0
}

pub fn mark(marks: &mut [u8], n: u32)
    ensures { marks.new ≡ set marks.old n 1 }
{
    let at = n as usize;
    // A proof knows no element after a slice's `get_mut`.
    if at < marks.len() {
        marks[at] = 1;
    }
}
