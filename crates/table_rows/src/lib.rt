// A table in one lent part of 32-bit numbers: the ids of its rows, then as many spots, the places of the records that count for them.
// Rows are never given back, so those that are taken stand first; who reads a table is lent just those, as two shared parts.
#![tactic(auto)]

ghost use Rattle.std.specs.Prelude.{◌≡◌, length};
ghost use Rattle.record_places.specs.Place.{Lies};
ghost use Rattle.table_rows.specs.Answer.{meant};
ghost use Rattle.table_rows.specs.Table.{found};
ghost use Rattle.table_rows.specs.Rows.{GoodPart, IndexedPart, UpdatesPart, Usable};

use record_places::{id_at, sequence_at};
use table_index::{put, row_of, slot_of};
use table_words::{first_free, occupy, position};

// What became of a record that was shown to a table.
#[derive(Clone, Copy)]
pub enum Updated {
    // it counts now: no record of its id before it has a sequence so great
    Newer,
    // a record of its id before it has a sequence as great or greater
    Older,
    // its id is new, and every row is taken
    Full,
}

// Shows the record at `p` to the table, which has `most` rows. Those that are taken stand first, so the lowest free row is their number.
pub fn update(
    image: &[u8],
    words: &mut [u64],
    index: &mut [u16],
    rows: &mut [u32],
    most: usize,
    p: u32,
) -> Updated
    requires good_part { GoodPart image.now most words.old rows.old }
    requires indexed_part { IndexedPart most words.old index.old rows.old }
    requires lies { Lies image.now p }
    ensures shown { UpdatesPart image.now p most words.old rows.old result words.new rows.new }
    ensures indexed { IndexedPart most words.new index.new rows.new }
{
    let id = id_at(image, p);
    let n = first_free(words);
    let k = row_of(index, rows, n, id);
    if k < n {
        if sequence_at(image, rows[most + k]) < sequence_at(image, p) {
            rows[most + k] = p;
            return Updated::Newer;
        }
        return Updated::Older;
    }
    if n < most {
        rows[n] = id;
        rows[most + n] = p;
        occupy(words, n);
        put(index, slot_of(id as usize), n + 1);
        return Updated::Newer;
    }
    Updated::Full
}

// The place of the record that counts for `id`, by the taken rows.
pub fn find(ids: &[u32], spots: &[u32], id: u32) -> Option<u32>
    requires { length spots.now ≡ length ids.now }
    ensures { meant result ≡ found (length ids.now) ids.now spots.now id }
{
    spots.get(position(ids, id)).copied()
}

// The taken rows of a table: their ids, and where in the image the records lie that count for them.
#[derive(Clone, Copy)]
pub struct TakenRows<'a> {
    pub image: &'a [u8],
    pub ids: &'a [u32],
    pub spots: &'a [u32],
    ghost usable: { Usable image.now ids.now spots.now },
}

impl<'a> TakenRows<'a> {
    // The place of the record that counts for `id`.
    pub fn find(&self, id: u32) -> Option<u32>
        ensures { meant result ≡ found (length self.now.ids.now) self.now.ids.now self.now.spots.now id }
    {
        find(self.ids, self.spots, id)
    }
}
