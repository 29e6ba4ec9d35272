// Attributes of equal width where a shape holds the key.
ghost use Rattle.std.specs.Prelude.{◌≡◌};
ghost use Rattle.store.specs.Layout.{parse};
ghost use Rattle.store.specs.Image.{Formed};
ghost use Rattle.rules.specs.Shapes.{entries};
ghost use Rattle.sound_shapes.specs.Tests.{Keyed, width_fits};

use key_position::{FirstEntries, position_of};
use slot::SlotAttributes;
use store::Shape;
use store::image::get_entry;

// An edge may lead on from a shape without the key; a configure step may not: the caller says what holds
// of an absent one.
pub fn width_fits(
    image: &[u32],
    s: Shape,
    key: u32,
    attributes: SlotAttributes,
    absent: bool,
) -> bool
    requires formed { Formed image.now }
    requires keyed { Keyed (parse image.now) s }
    ensures { result ≡ width_fits absent key attributes.0 (entries (parse image.now) s) }
{
    match position_of(image, FirstEntries::of(s), key) {
        None => absent,
        Some(position) => {
            let held = get_entry(image, s.table, position);
            SlotAttributes(held.attributes as u8).width_match(attributes)
        }
    }
}
