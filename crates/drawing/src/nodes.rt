// A node for each shape in use: its own words, and its keys.
ghost use Rattle.std.specs.Prelude.{◌*◌, ◌≤◌, length};
ghost use Rattle.store.specs.Model.{shape_at};
ghost use Rattle.store.specs.Layout.{parse};
ghost use Rattle.store.specs.Image.{Formed, Place};
ghost use Rattle.theorems.specs.Facts.{Sound};
ghost use Rattle.property_table.specs.Readable.{Readable};
ghost use Rattle.lines.specs.Pages.{room, Adds};
ghost use Rattle.drawing.specs.Graph.{state_text, title_text, counts_text, apart_text};
ghost use Rattle.drawing.specs.Graph.{shape_text, node_text, texts};

use crate::rows::write_rows;
use key_position::FirstEntries;
use lines::page::Page;
use store::image::{get_shape, shape_count};
use store::{Shape, ShapeState};

fn write_state(page: &mut Page<'_>, s: Shape)
    requires { 12 ≤ room page.old }
    ensures { Adds page.old page.new (state_text s) 12 }
{
    if s.state == ShapeState::UNIQUE {
        page.write_word(b"</b>, unique");
    } else {
        page.write_word(b"</b>, shared");
    }
}

fn write_title(page: &mut Page<'_>, n: u32, s: Shape)
    requires { 150 ≤ room page.old }
    ensures { Adds page.old page.new (title_text n s) 150 }
{
    page.write_numbered(b"s", n);
    page.write_word(
        b" [label=<<table border=\"0\" cellborder=\"1\" cellspacing=\"0\" cellpadding=\"4\">\n",
    );
    page.write_numbered(b"<tr><td colspan=\"4\"><b>shape ", n);
    write_state(page, s);
}

fn write_counts(page: &mut Page<'_>, s: Shape)
    requires { 81 ≤ room page.old }
    ensures { Adds page.old page.new (counts_text s) 81 }
{
    page.write_numbered(b"<br/>holds ", s.holds);
    page.write_numbered(b", prototype ", s.prototype);
    page.write_numbered(b"<br/>transitions ", s.transitions);
    page.write_word(b"</td></tr>\n");
}

fn write_apart(page: &mut Page<'_>, n: u32, s: Shape)
    requires { 70 ≤ room page.old }
    ensures { Adds page.old page.new (apart_text n s) 70 }
{
    if s.state != ShapeState::UNIQUE {
        return;
    }
    page.write_numbered(b"subgraph cluster_unique { label=\"unique shapes\" s", n);
    page.write_word(b" }\n");
}

// With 32 keys it has 5,200 bytes at most.
fn write_shape(page: &mut Page<'_>, image: &[u32], n: u32, s: Shape)
    requires formed { Formed image.now }
    requires readable { Readable (parse image.now) s }
    requires properties_bound { s.properties ≤ 32 }
    requires room { 5200 ≤ room page.old }
    ensures { Adds page.old page.new (shape_text (parse image.now) n s) 5200 }
{
    write_title(page, n, s);
    write_counts(page, s);
    write_rows(page, image, FirstEntries::of(s));
    page.write_word(b"</table>>]\n");
    write_apart(page, n, s);
}

fn write_node(page: &mut Page<'_>, image: &[u32], n: u32)
    requires formed { Formed image.now }
    requires sound { Sound (parse image.now) }
    requires image_bound { (parse image.now).K ≤ 32 }
    requires place { Place (length (parse image.now).shapes) n }
    requires room { 5200 ≤ room page.old }
    ensures { Adds page.old page.new
        (node_text (parse image.now) n (shape_at (parse image.now) n)) 5200 }
{
    let s = get_shape(image, n);
    if s.state == ShapeState::FREE {
        return;
    }
    write_shape(page, image, n, s);
}

pub fn write_nodes(page: &mut Page<'_>, image: &[u32])
    requires formed { Formed image.now }
    requires sound { Sound (parse image.now) }
    requires image_bound { (parse image.now).K ≤ 32 }
    requires room { 5200 * length (parse image.now).shapes ≤ room page.old }
    ensures { Adds page.old page.new
        (texts (node_text (parse image.now)) 1 (parse image.now).shapes)
        (5200 * length (parse image.now).shapes) }
{
    for before in 0..shape_count(image) {
        write_node(page, image, before + 1);
    }
}
