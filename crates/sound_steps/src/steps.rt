// Whether a child's keys, attributes and prototype are its previous's with its edge's step applied.
ghost use Rattle.std.specs.Prelude.{◌≡◌, true, ◌≤◌};
ghost use Rattle.store.specs.Layout.{parse};
ghost use Rattle.store.specs.Image.{Formed};
ghost use Rattle.rules.specs.Shapes.{entries};
ghost use Rattle.rules.specs.Steps.{configure, may_step, step_prototype};
ghost use Rattle.rules.specs.Sound.{tables_good, step_of, leads};
ghost use Rattle.rules.specs.InUse.{Tabled};
ghost use Rattle.sound_shapes.specs.Tests.{Keyed};
ghost use Rattle.sound_steps.specs.StepLaws.{same_pair, changed, first_follow, entries_follow};

use slot::{KeyPosition, SlotAttributes};
use sound_shapes::widths::width_fits;
use store::image::get_entry;
use store::{Edge, Entry, Shape, StepKind};

// An edge's attributes are tested after its step, so that here they may not fit the attribute byte. The names that
// make a width are among those of a stored value.
fn may_configure(image: &[u32], p: Shape, edge: Edge) -> bool
    requires formed { Formed image.now }
    requires keyed { Keyed (parse image.now) p }
    ensures { result ≡ may_step (configure edge.label edge.attributes)
        (entries (parse image.now) p) }
{
    let attributes = SlotAttributes((edge.attributes % SlotAttributes::STORED_VALUES) as u8);
    width_fits(image, p, edge.label, attributes, false)
}

// Of an entry all but the slot, which no step tells.
fn is_same(a: Entry, b: Entry) -> bool
    ensures { result ≡ same_pair a b }
{
    (a.key == b.key) & (a.attributes == b.attributes)
}

fn entry_after(configures: bool, edge: Edge, e: Entry) -> Entry
    ensures { result ≡ changed configures edge e }
{
    if configures & (e.key == edge.label) {
        Entry {
            attributes: edge.attributes,
            ..e
        }
    } else {
        e
    }
}

// One loop serves the three kinds of step: only a configure changes an entry, and an insert's new
// one stands after those of the previous. In the previous's own table they are the same words.
fn same_first(image: &[u32], p: Shape, s: Shape, edge: Edge, configures: bool) -> bool
    requires formed { Formed image.now }
    requires tabled { Tabled (parse image.now) p }
    requires tabled_2 { Tabled (parse image.now) s }
    requires properties_le_properties { p.properties ≤ s.properties }
    ensures { result ≡ first_follow (parse image.now) p s edge configures }
{
    if !configures & (p.table == s.table) {
        return true;
    }
    for at in 0..p.properties {
        let position = KeyPosition(at);
        let old = get_entry(image, p.table, position);
        let new = get_entry(image, s.table, position);
        if !is_same(new, entry_after(configures, edge, old)) {
            return false;
        }
    }
    true
}

fn entries_follow(image: &[u32], p: Shape, s: Shape, edge: Edge) -> bool
    requires formed { Formed image.now }
    requires tabled { Tabled (parse image.now) p }
    requires tabled_2 { Tabled (parse image.now) s }
    ensures { result ≡ entries_follow (parse image.now) p s edge }
{
    let before = p.properties;
    if s.step == StepKind::INSERT {
        if s.properties != before + 1 {
            return false;
        }
        let last = get_entry(image, s.table, KeyPosition(before));
        let added = (last.key == edge.label) & (last.attributes == edge.attributes);
        return same_first(image, p, s, edge, false) & added;
    }
    if s.properties != before {
        return false;
    }
    same_first(image, p, s, edge, s.step == StepKind::CONFIGURE)
}

fn prototype_after(kind: u32, edge: Edge, prototype: u32) -> u32
    ensures { result ≡ step_prototype (step_of kind edge) prototype }
{
    if kind > StepKind::CONFIGURE {
        edge.label
    } else {
        prototype
    }
}

// That an insert's key is new needs no test: the child's table has distinct keys.
pub fn leads(image: &[u32], p: Shape, s: Shape, edge: Edge) -> bool
    requires formed { Formed image.now }
    requires image_value { tables_good (parse image.now) ≡ true }
    requires tabled { Tabled (parse image.now) p }
    requires tabled_2 { Tabled (parse image.now) s }
    ensures { result ≡ leads (step_of s.step edge) (entries (parse image.now) p) p.prototype
        (entries (parse image.now) s) s.prototype }
{
    let follow = entries_follow(image, p, s, edge);
    let after = follow & (s.prototype == prototype_after(s.step, edge, p.prototype));
    if s.step == StepKind::CONFIGURE {
        return after & may_configure(image, p, edge);
    }
    after
}
