// Whether the tables are laid out.
// Nothing but the header is known of the image yet, so that this reads words.
ghost use Rattle.std.specs.Prelude.{◌≡◌, ◌==◌, Bool, ◌+◌, ◌-◌, ◌*◌, ◌≤◌, length, drop};
ghost use Rattle.std.specs.List.{list_all};
ghost use Rattle.store.specs.Lists.{every};
ghost use Rattle.store.specs.Layout.{limits_in, good_limits, good_header, table_width, rows};
ghost use Rattle.store.specs.Layout.{tidy_table, tidy_tables};
ghost use Rattle.store.specs.FreePlaces.{Area};

use header::limits_in;
use store::rows::row;

fn are_zero(words: &[u32]) -> bool
    ensures { result ≡ list_all (λ word. word == 0) words.now }
{
    words.iter().all(|word| *word == 0)
}

fn zero_from(words: &[u32], from: usize) -> bool
    requires { from ≤ length words.now }
    ensures { result ≡ list_all (λ word. word == 0) (drop from words.now) }
{
    are_zero(&words[from..])
}

// A count word of 0 says that the table is free, and it has no entries either.
fn first_unused(count: u32) -> usize
    requires { count ≤ 2049 }
    ensures { result ≡ 1 + 3 * (count - 1) }
{
    1 + 3 * count.saturating_sub(1) as usize
}

fn tidy_table(table: &[u32], keys: u32) -> bool
    requires keys_bound { keys ≤ 2048 }
    requires table_len { length table.now ≡ table_width keys }
    ensures { result ≡ tidy_table keys table.now }
{
    let count = table[0];
    if count > 1 + keys {
        return false;
    }
    zero_from(table, first_unused(count))
}

fn tidy_rows(image: &[u32], area: usize, width: usize, count: u32, keys: u32) -> bool
    requires area { Area image.now area width count }
    requires keys_bound { keys ≤ 2048 }
    requires width_value { width ≡ table_width keys }
    ensures { result ≡ every (tidy_table keys) (rows width count (drop area image.now)) }
{
    for done in 0..count {
        if !tidy_table(row(image, area, width, done + 1), keys) {
            return false;
        }
    }
    true
}

pub fn tidy_tables(image: &[u32]) -> bool
    requires image_value { good_limits (limits_in image.now) ≡ Bool.true }
    requires image_value_2 { good_header image.now ≡ Bool.true }
    ensures { result ≡ tidy_tables image.now }
{
    let limits = limits_in(image);
    let width = 1 + 3 * limits.K as usize;
    tidy_rows(image, image[5] as usize, width, limits.T, limits.K)
}
