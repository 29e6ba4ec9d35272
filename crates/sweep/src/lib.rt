// Document 01, "Holds, sweeps, questions": a sweep of the lent image.
#![tactic(auto)]

ghost use Rattle.store.specs.Layout.{parse};
ghost use Rattle.store.specs.Image.{Formed, Becomes};
ghost use Rattle.rules.specs.Sweep.{swept};
ghost use Rattle.rules.specs.Calls.{perform, sweep};
ghost use Rattle.rules.specs.Replies.{Answers, sweep_reply};
ghost use Rattle.theorems.specs.Facts.{Sound};

use crate::passes::{sweep_edges, sweep_shapes, sweep_tables};
use crate::walks::mark_reached;
use rules::{FreedPlaces, Refusal};
use store::image::{free_shapes, free_tables};

mod marks;
mod passes;
mod walks;

// "A sweep frees exactly the shapes not held and not on the previous chain of a held one, their
// tables when unused, and their own edges; other edges to a freed shape become dead."
fn free_unreached(image: &mut [u32])
    requires formed { Formed image.old }
    requires sound { Sound (parse image.old) }
    ensures { Becomes image.old image.new (swept (parse image.old)) }
{
    let mut marks = [0u8; 65536];
    mark_reached(image, &mut marks);
    sweep_shapes(image, &marks);
    sweep_tables(image);
    sweep_edges(image, &marks);
}

// "It answers how many shapes and tables it freed."
pub fn sweep(image: &mut [u32]) -> Result<FreedPlaces, Refusal>
    requires formed { Formed image.old }
    requires sound { Sound (parse image.old) }
    ensures { Answers image.old image.new
        (perform (parse image.old) sweep) (sweep_reply result) }
{
    let shapes = free_shapes(image);
    let tables = free_tables(image);
    free_unreached(image);
    Ok(FreedPlaces {
        shapes: free_shapes(image) - shapes,
        tables: free_tables(image) - tables,
    })
}
