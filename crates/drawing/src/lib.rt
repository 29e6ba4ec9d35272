// An image's shapes as a graph in the language of Graphviz, written into lent bytes.
#![tactic(auto)]

ghost use Rattle.std.specs.Prelude.{◌+◌, ◌*◌, ◌≤◌, length};
ghost use Rattle.store.specs.Layout.{parse};
ghost use Rattle.store.specs.Image.{Formed};
ghost use Rattle.theorems.specs.Facts.{Sound};
ghost use Rattle.lines.specs.Writing.{Written};
ghost use Rattle.lines.specs.Pages.{room, Adds};
ghost use Rattle.drawing.specs.Graph.{opening, graph_text};

use crate::edges::write_edges;
use crate::nodes::write_nodes;
use lines::page::Page;

mod edges;
mod nodes;
mod rows;
mod words;

fn write_opening(page: &mut Page<'_>)
    requires { 400 ≤ room page.old }
    ensures { Adds page.old page.new opening 400 }
{
    page.write_word(
        b"digraph shapes {\nnodesep=0.5\nranksep=0.25\nfontname=\"Helvetica,Arial,sans-serif\"\n",
    );
    page.write_word(b"node [shape=plain fontname=\"Helvetica,Arial,sans-serif\"]\n");
    page.write_word(b"edge [fontname=\"Helvetica,Arial,sans-serif\"]\n");
    page.write_word(
        b"label=\"\\lA row is a storage place: slot index, key, attributes, what is stored.\\l",
    );
    page.write_word(
        b"w writable, e enumerable, c configurable, g get, s set. A dashed edge is dead.\\l\"\n",
    );
}

// At the front of `out`. Answers where it ends.
pub fn write_graph(out: &mut [u8], image: &[u32]) -> usize
    requires formed { Formed image.now }
    requires sound { Sound (parse image.now) }
    requires image_bound { (parse image.now).K ≤ 32 }
    requires image_in_bounds { 5200 * length (parse image.now).shapes + 121 * length (parse image.now).edges + 402
        ≤ length out.old }
    ensures written { Written out.old out.new 0 (graph_text (parse image.now)) result }
    ensures upper_bound { result ≤ length out.old }
{
    let mut page = Page { bytes: out, end: 0 };
    write_opening(&mut page);
    write_nodes(&mut page, image);
    write_edges(&mut page, image);
    page.write_word(b"}\n");
    page.end
}
