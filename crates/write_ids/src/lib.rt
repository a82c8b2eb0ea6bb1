// Ids for new records: a window of ids in lent words, one bit an id, so that many are taken in one pass over the records.
#![tactic(auto)]

ghost use Rattle.std.specs.Prelude.{◌≡◌, List, ◌∷◌, ℕ, ◌≤◌, ◌<◌, length, replicate};
ghost use Rattle.format.specs.Ids.{first_block_id};
ghost use Rattle.calls.specs.Mount.{most_records};
ghost use Rattle.calls.specs.Storing.{unused_id};
ghost use Rattle.record_places.specs.Place.{Lies, AllLie};
ghost use Rattle.table_words.specs.Occupancy.{bits, capacity, most_words, first_zero};
ghost use Rattle.write_ids.specs.Window.{Marks, named_at, with_names};

use calls::{MOST_BLOCKS, MOST_RECORDS};
use record_places::{id_at, is_block_at, link_at, previous_at};
use table_words::{BITS, first_free, occupy};

// Words for more ids than all records name, three at most to each, and one append takes, which may fill the table of blocks.
pub const ID_WORDS: usize = (MOST_RECORDS * 3 + MOST_BLOCKS) / BITS + 1;

// Marks an id as named; one outside the window needs no mark.
fn mark(words: &mut [u64], first: u32, id: u32)
    requires { length words.old ≤ most_words }
    ensures { (names : List ℕ) → Marks first names words.old → Marks first (id ∷ names) words.new }
{
    if id < first {
        return;
    }
    let k = (id - first) as usize;
    if k < words.len() * BITS {
        occupy(words, k);
    }
}

// Marks the ids that the record at `p` names. An id that anything still names is never used again.
fn mark_record(image: &[u8], p: u32, words: &mut [u64], first: u32)
    requires lies { Lies image.now p }
    requires words_len_bound { length words.old ≤ most_words }
    ensures { (names : List ℕ) → Marks first names words.old → Marks first (with_names image.now p names) words.new }
{
    let id = id_at(image, p);
    let link = link_at(image, p);
    mark(words, first, id);
    mark(words, first, link);
    if is_block_at(image, p) {
        mark(words, first, previous_at(image, p));
    }
}

// Marks, in fresh words, the ids that the records at `places` name.
pub fn mark_named(image: &[u8], places: &[u16], words: &mut [u64], first: u32)
    requires all_lie { AllLie image.now places.now (length places.now) }
    requires words_len_bound { length words.old ≤ most_words }
    requires words_value { words.old ≡ replicate (length words.old) 0 }
    ensures { Marks first (named_at image.now places.now) words.new }
{
    for p in places {
        mark_record(image, u32::from(*p), words, first);
    }
}

// The smallest id of the window that is not named, which is marked as named from then on.
pub fn take_id(words: &mut [u64], first: u32) -> u32
    requires words_len_bound { length words.old ≤ most_words }
    requires words_bound { first_zero (bits words.old) < capacity words.old }
    requires first_le_first_block_id { first ≤ first_block_id }
    ensures { (names : List ℕ) → Marks first names words.old → length names < capacity words.old → (result ≡ unused_id first names) × Marks first (result ∷ names) words.new }
{
    let free = first_free(words);
    occupy(words, free);
    first + free as u32
}

// The smallest id from `first` on that no record at `places` names.
pub fn unused_id(image: &[u8], places: &[u16], first: u32) -> u32
    requires all_lie { AllLie image.now places.now (length places.now) }
    requires places_len_bound { length places.now ≤ most_records }
    requires first_le_first_block_id { first ≤ first_block_id }
    ensures { result ≡ unused_id first (named_at image.now places.now) }
{
    let mut words = [0u64; ID_WORDS];
    mark_named(image, places, &mut words, first);
    take_id(&mut words, first)
}
