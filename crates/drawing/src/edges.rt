// An edge for each edge in use, with the step that it stands for.
ghost use Rattle.std.specs.Prelude.{◌*◌, ◌≤◌, length};
ghost use Rattle.slot.specs.Attributes.{most_stored};
ghost use Rattle.store.specs.Model.{edge_at};
ghost use Rattle.store.specs.Layout.{parse};
ghost use Rattle.store.specs.Image.{Formed, Place};
ghost use Rattle.theorems.specs.Facts.{Sound, Used};
ghost use Rattle.lines.specs.Pages.{room, Adds};
ghost use Rattle.drawing.specs.Graph.{step_name, property_step_text, step_text};
ghost use Rattle.drawing.specs.Graph.{ends, edge_text, texts};

use crate::words::{write_attributes, write_key};
use lines::page::Page;
use property_table::find;
use store::image::{edge_count, get_edge};
use store::{Edge, EdgeKind};

fn write_step_name(page: &mut Page<'_>, image: &[u32], e: Edge)
    requires formed { Formed image.now }
    requires sound { Sound (parse image.now) }
    requires used { Used (parse image.now) e.parent }
    requires room { 10 ≤ room page.old }
    ensures { Adds page.old page.new (step_name (parse image.now) e) 10 }
{
    match find(image, e.parent, e.label) {
        Some(_) => page.write_word(b"configure "),
        None => page.write_word(b"insert "),
    }
}

fn write_property_step(page: &mut Page<'_>, image: &[u32], e: Edge)
    requires formed { Formed image.now }
    requires sound { Sound (parse image.now) }
    requires used { Used (parse image.now) e.parent }
    requires attributes_le_most_stored { e.attributes ≤ most_stored }
    requires room { 33 ≤ room page.old }
    ensures { Adds page.old page.new (property_step_text (parse image.now) e) 33 }
{
    write_step_name(page, image, e);
    write_key(page, e.label);
    page.write_word(b" ");
    write_attributes(page, e.attributes);
}

fn write_step(page: &mut Page<'_>, image: &[u32], e: Edge)
    requires formed { Formed image.now }
    requires sound { Sound (parse image.now) }
    requires used { Used (parse image.now) e.parent }
    requires attributes_le_most_stored { e.attributes ≤ most_stored }
    requires room { 33 ≤ room page.old }
    ensures { Adds page.old page.new (step_text (parse image.now) e) 33 }
{
    if e.kind == EdgeKind::PROTOTYPE {
        page.write_numbered(b"prototype ", e.label);
    } else {
        write_property_step(page, image, e);
    }
}

fn write_ends(page: &mut Page<'_>, n: u32, e: Edge)
    requires { 85 ≤ room page.old }
    ensures { Adds page.old page.new (ends n e) 85 }
{
    if e.child == 0 {
        page.write_numbered(b"e", n);
        page.write_numbered(b" [shape=point]\ns", e.parent);
        page.write_numbered(b" -> e", n);
        page.write_word(b"[style=dashed label=\" ");
        return;
    }
    page.write_numbered(b"s", e.parent);
    page.write_numbered(b" -> s", e.child);
    page.write_word(b"[label=\" ");
}

// 85 bytes of ends, 33 of the step, and the label's end.
fn write_edge(page: &mut Page<'_>, image: &[u32], n: u32)
    requires formed { Formed image.now }
    requires sound { Sound (parse image.now) }
    requires place { Place (length (parse image.now).edges) n }
    requires room { 121 ≤ room page.old }
    ensures { Adds page.old page.new
        (edge_text (parse image.now) n (edge_at (parse image.now) n)) 121 }
{
    let e = get_edge(image, n);
    if e.parent == 0 {
        return;
    }
    write_ends(page, n, e);
    write_step(page, image, e);
    page.write_word(b"\"]\n");
}

pub fn write_edges(page: &mut Page<'_>, image: &[u32])
    requires formed { Formed image.now }
    requires sound { Sound (parse image.now) }
    requires room { 121 * length (parse image.now).edges ≤ room page.old }
    ensures { Adds page.old page.new
        (texts (edge_text (parse image.now)) 1 (parse image.now).edges)
        (121 * length (parse image.now).edges) }
{
    for before in 0..edge_count(image) {
        write_edge(page, image, before + 1);
    }
}
