// "Sound means all of this": the test that every public call makes first.
#![tactic(auto)]

ghost use Rattle.std.specs.Prelude.{◌≡◌, true, ◌≤◌, ◌*◌};
ghost use Rattle.store.specs.Layout.{parse};
ghost use Rattle.store.specs.Image.{Formed};
ghost use Rattle.rules.specs.Sound.{sound, sound_model};
ghost use Rattle.soundness.specs.Parts.{fields_sound, links_sound};
ghost use Rattle.soundness.specs.Room.{Room, Within};

use header::good_header;
use sound_shapes::{edges_differ, edges_good, free_are_zero, in_range, shapes_good};
use sound_steps::children_follow;
use sound_tables::{tables_good, tables_used, tidy_tables};
use store::image::{edge_count, shape_count, table_count};

// The sentences that must hold before the others can be read: ranges, tables in use, what stands
// in them.
fn fields_are_sound(image: &[u32], codes: &mut [u64], room: &mut [u32]) -> bool
    requires formed { Formed image.now }
    requires room { Room (parse image.now) codes.old room.old }
    ensures { result ≡ fields_sound (parse image.now) }
{
    if !in_range(image) {
        return false;
    }
    if !shapes_good(image) {
        return false;
    }
    tables_good(image, codes, room) & free_are_zero(image) & tables_used(image, room)
}

// What shapes and edges say of each other.
fn links_are_sound(image: &[u32], codes: &mut [u64], room: &mut [u32]) -> bool
    requires formed { Formed image.now }
    requires room { Room (parse image.now) codes.old room.old }
    requires image_value { fields_sound (parse image.now) ≡ true }
    ensures { result ≡ links_sound (parse image.now) }
{
    let end = shape_count(image) as usize + 1;
    if !children_follow(image, &mut room[0..end]) {
        return false;
    }
    if !edges_good(image) {
        return false;
    }
    edges_differ(image, codes, room)
}

fn sound_in_room(image: &[u32], codes: &mut [u64], room: &mut [u32]) -> bool
    requires formed { Formed image.now }
    requires room { Room (parse image.now) codes.old room.old }
    ensures { result ≡ sound_model (parse image.now) }
{
    if !fields_are_sound(image, codes, room) {
        return false;
    }
    links_are_sound(image, codes, room)
}

fn is_within(image: &[u32], most: u32) -> bool
    requires { Formed image.now }
    ensures { result ≡ true → Within most (parse image.now) }
{
    (shape_count(image) <= most) & (table_count(image) <= most) & (edge_count(image) <= most)
}

// The arrays of a larger form are cleared in longer than a small image is tested in.
fn sound_within<const CODES: usize, const ROOM: usize>(image: &[u32]) -> bool
    requires formed { Formed image.now }
    requires within { Within CODES (parse image.now) }
    requires keys_fit { 2048 ≤ CODES }
    requires codes_bound { CODES ≤ 65536 }
    requires seats_fit { ROOM ≡ 4 * CODES }
    ensures { result ≡ sound_model (parse image.now) }
{
    let mut codes = [0u64; CODES];
    let mut room = [0u32; ROOM];
    sound_in_room(image, &mut codes, &mut room)
}

fn model_is_sound(image: &[u32]) -> bool
    requires { Formed image.now }
    ensures { result ≡ sound_model (parse image.now) }
{
    if is_within(image, 2048) {
        return sound_within::<2048, 8192>(image);
    }
    if is_within(image, 16384) {
        return sound_within::<16384, 65536>(image);
    }
    sound_within::<65536, 262144>(image)
}

pub fn is_sound(image: &[u32]) -> bool
    ensures { result ≡ sound image.now }
{
    if !good_header(image) {
        return false;
    }
    if !tidy_tables(image) {
        return false;
    }
    model_is_sound(image)
}
