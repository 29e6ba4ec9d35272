// The records of the lent image, by their places. No other crate knows where a record's words lie.
ghost use Rattle.std.specs.Prelude.{◌≡◌, false, [], ◌∷◌, ◌++◌, ◌<◌, length, get_or, set};
ghost use Rattle.store.specs.Model.{limits_of, shape_at, put_shape, edge_at, put_edge};
ghost use Rattle.store.specs.Model.{table_at, put_table, entries_of, free_table, free, used, no_entry};
ghost use Rattle.store.specs.Model.{free_shape, free_edge};
ghost use Rattle.store.specs.Lists.{lowest, keep};
ghost use Rattle.store.specs.Layout.{tables_offset, edges_offset, table_width, count_word, table_words, parse};
ghost use Rattle.store.specs.Image.{Formed, Place, Becomes};
ghost use Rattle.store.specs.Tables.{Edited};

use crate::records::{edit_table, read_edge, read_entry, read_shape, write_edge, write_shape};
use crate::rows::{clear, count_unused, lowest_unused, row, row_at};
use crate::{Edge, Entry, Shape};
use slot::KeyPosition;

const SHAPES: usize = 8;

const SHAPE_WORDS: usize = 10;

const EDGE_WORDS: usize = 5;

const ENTRIES: usize = 1;

const ENTRY_WORDS: usize = 3;

pub fn shape_count(image: &[u32]) -> u32
    requires { Formed image.now }
    ensures { result ≡ length (parse image.now).shapes }
{
    image[0]
}

pub fn table_count(image: &[u32]) -> u32
    requires { Formed image.now }
    ensures { result ≡ length (parse image.now).tables }
{
    image[1]
}

pub fn key_limit(image: &[u32]) -> u32
    requires { Formed image.now }
    ensures { result ≡ (parse image.now).K }
{
    image[2]
}

pub fn edge_count(image: &[u32]) -> u32
    requires { Formed image.now }
    ensures { result ≡ length (parse image.now).edges }
{
    image[3]
}

fn tables(image: &[u32]) -> usize
    requires { Formed image.now }
    ensures { result ≡ tables_offset (limits_of (parse image.now)) }
{
    image[5] as usize
}

fn edges(image: &[u32]) -> usize
    requires { Formed image.now }
    ensures { result ≡ edges_offset (limits_of (parse image.now)) }
{
    image[6] as usize
}

fn table_width(image: &[u32]) -> usize
    requires { Formed image.now }
    ensures { result ≡ table_width (parse image.now).K }
{
    1 + 3 * key_limit(image) as usize
}

pub fn get_shape(image: &[u32], n: u32) -> Shape
    requires formed { Formed image.now }
    requires place { Place (length (parse image.now).shapes) n }
    ensures { result ≡ shape_at (parse image.now) n }
{
    read_shape(row(image, SHAPES, SHAPE_WORDS, n))
}

pub fn put_shape(image: &mut [u32], n: u32, s: Shape)
    requires formed { Formed image.old }
    requires place { Place (length (parse image.old).shapes) n }
    ensures { Becomes image.old image.new (put_shape (parse image.old) n s) }
{
    let at = row_at(image, SHAPES, SHAPE_WORDS, n);
    let end = at + SHAPE_WORDS;
    write_shape(&mut image[at..end], s);
}

pub fn get_edge(image: &[u32], n: u32) -> Edge
    requires formed { Formed image.now }
    requires place { Place (length (parse image.now).edges) n }
    ensures { result ≡ edge_at (parse image.now) n }
{
    read_edge(row(image, edges(image), EDGE_WORDS, n))
}

pub fn put_edge(image: &mut [u32], n: u32, e: Edge)
    requires formed { Formed image.old }
    requires place { Place (length (parse image.old).edges) n }
    ensures { Becomes image.old image.new (put_edge (parse image.old) n e) }
{
    let at = row_at(image, edges(image), EDGE_WORDS, n);
    let end = at + EDGE_WORDS;
    write_edge(&mut image[at..end], e);
}

// A table's words: its count word and its entries.
fn table_words(image: &[u32], t: u32) -> &[u32]
    requires formed { Formed image.now }
    requires place { Place (length (parse image.now).tables) t }
    ensures { result.now ≡ table_words (parse image.now).K (table_at (parse image.now) t) }
{
    row(image, tables(image), table_width(image), t)
}

// 0 for a free table, else one more than it has entries.
fn count_word(image: &[u32], t: u32) -> u32
    requires formed { Formed image.now }
    requires place { Place (length (parse image.now).tables) t }
    ensures { result ≡ count_word (table_at (parse image.now) t) }
{
    let table = table_words(image, t);
    table[0]
}

pub fn table_is_free(image: &[u32], t: u32) -> bool
    requires formed { Formed image.now }
    requires place { Place (length (parse image.now).tables) t }
    ensures { result ≡ free_table (table_at (parse image.now) t) }
{
    count_word(image, t) == 0
}

pub fn entry_count(image: &[u32], t: u32) -> u32
    requires formed { Formed image.now }
    requires place { Place (length (parse image.now).tables) t }
    ensures { result ≡ length (entries_of (table_at (parse image.now) t)) }
{
    let count = count_word(image, t);
    if count == 0 { 0 } else { count - 1 }
}

pub fn get_entry(image: &[u32], t: u32, position: KeyPosition) -> Entry
    requires formed { Formed image.now }
    requires place { Place (length (parse image.now).tables) t }
    requires position_in_bounds { position.0 < length (entries_of (table_at (parse image.now) t)) }
    ensures { result ≡ get_or (entries_of (table_at (parse image.now) t)) position.0 no_entry }
{
    let table = table_words(image, t);
    read_entry(row(table, ENTRIES, ENTRY_WORDS, position.0 + 1))
}

// Another entry at a position, and another count word: the words are those of another table.
fn edit_entry(image: &mut [u32], t: u32, position: KeyPosition, e: Entry, count: u32)
    requires formed { Formed image.old }
    requires place { Place (length (parse image.old).tables) t }
    requires position_bound { position.0 < (parse image.old).K }
    ensures { Edited image.old image.new t position.0 e count }
{
    let width = table_width(image);
    let at = row_at(image, tables(image), width, t);
    let end = at + width;
    edit_table(&mut image[at..end], position, e, count);
}

pub fn set_entry(image: &mut [u32], t: u32, position: KeyPosition, e: Entry)
    requires formed { Formed image.old }
    requires place { Place (length (parse image.old).tables) t }
    requires position_in_bounds { position.0 < length (entries_of (table_at (parse image.old) t)) }
    ensures { Becomes image.old image.new
        (put_table (parse image.old) t
        (used (set (entries_of (table_at (parse image.old) t)) position.0 e))) }
{
    let count = count_word(image, t);
    edit_entry(image, t, position, e, count);
}

pub fn append_entry(image: &mut [u32], t: u32, e: Entry)
    requires formed { Formed image.old }
    requires place { Place (length (parse image.old).tables) t }
    requires t_value { free_table (table_at (parse image.old) t) ≡ false }
    requires t_len_bound { length (entries_of (table_at (parse image.old) t)) < (parse image.old).K }
    ensures { Becomes image.old image.new
        (put_table (parse image.old) t
        (used (entries_of (table_at (parse image.old) t) ++ e ∷ []))) }
{
    let count = count_word(image, t);
    edit_entry(image, t, KeyPosition(count - 1), e, count + 1);
}

// The words of a free table are zero, so that its count word is all that says that it is in use.
pub fn start_table(image: &mut [u32], t: u32)
    requires formed { Formed image.old }
    requires place { Place (length (parse image.old).tables) t }
    requires t_value { table_at (parse image.old) t ≡ free }
    ensures { Becomes image.old image.new
        (put_table (parse image.old) t (used [])) }
{
    let at = row_at(image, tables(image), table_width(image), t);
    image[at] = 1;
}

// Zeroes every word of the table.
pub fn free_table(image: &mut [u32], t: u32)
    requires formed { Formed image.old }
    requires place { Place (length (parse image.old).tables) t }
    ensures { Becomes image.old image.new
        (put_table (parse image.old) t free) }
{
    let width = table_width(image);
    let at = row_at(image, tables(image), width, t);
    let end = at + width;
    clear(&mut image[at..end]);
}

pub fn empty_table(image: &mut [u32], t: u32)
    requires formed { Formed image.old }
    requires place { Place (length (parse image.old).tables) t }
    ensures { Becomes image.old image.new
        (put_table (parse image.old) t (used [])) }
{
    free_table(image, t);
    start_table(image, t);
}

pub fn lowest_free_shape(image: &[u32]) -> u32
    requires { Formed image.now }
    ensures { result ≡ lowest free_shape 1 (parse image.now).shapes }
{
    lowest_unused(image, SHAPES, SHAPE_WORDS, shape_count(image))
}

pub fn free_shapes(image: &[u32]) -> u32
    requires { Formed image.now }
    ensures { result ≡ length (keep free_shape (parse image.now).shapes) }
{
    count_unused(image, SHAPES, SHAPE_WORDS, shape_count(image))
}

pub fn lowest_free_table(image: &[u32]) -> u32
    requires { Formed image.now }
    ensures { result ≡ lowest free_table 1 (parse image.now).tables }
{
    lowest_unused(image, tables(image), table_width(image), table_count(image))
}

pub fn free_tables(image: &[u32]) -> u32
    requires { Formed image.now }
    ensures { result ≡ length (keep free_table (parse image.now).tables) }
{
    count_unused(image, tables(image), table_width(image), table_count(image))
}

pub fn lowest_free_edge(image: &[u32]) -> u32
    requires { Formed image.now }
    ensures { result ≡ lowest free_edge 1 (parse image.now).edges }
{
    lowest_unused(image, edges(image), EDGE_WORDS, edge_count(image))
}

pub fn free_edges(image: &[u32]) -> u32
    requires { Formed image.now }
    ensures { result ≡ length (keep free_edge (parse image.now).edges) }
{
    count_unused(image, edges(image), EDGE_WORDS, edge_count(image))
}
