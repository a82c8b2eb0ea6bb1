// An index of numbered items by slot, in one lent part: of each slot the last item that was put there, and of each item the one before it in its
// slot. Items are named by their numbers from 1, so that 0 is none, and who seeks an item walks those of its slot alone: `row_of` the rows of a table.
#![tactic(auto)]

ghost use Rattle.std.specs.Prelude.{◌≡◌, ◌+◌, ◌≤◌, ◌<◌, length, take};
ghost use Rattle.table_words.specs.Position.{position_of};
ghost use Rattle.table_index.specs.Index.{slots, slot_of, newest_of, before_of, with_item};
ghost use Rattle.table_index.specs.Rows.{RowIndex};

// How many slots there are.
pub const SLOTS: usize = 512;

// The numbers of 32 bits, and that by the golden ratio.
const WORD: usize = 4294967296;

const GOLDEN: usize = 2654435769;

// The slot of a key, of which 32 bits are looked at.
pub fn slot_of(key: usize) -> usize
    ensures { result ≡ slot_of key }
{
    key % WORD * GOLDEN % WORD / (WORD / SLOTS)
}

// The last item of a slot, 0 if it has none.
pub fn newest(index: &[u16], slot: usize) -> usize
    requires { (slot < slots) × (slots ≤ length index.now) }
    ensures { result ≡ newest_of index.now slot }
{
    usize::from(index[slot])
}

// The item before an item in its slot, 0 if there is none.
pub fn before(index: &[u16], item: usize) -> usize
    requires { (0 < item) × (slots + item ≤ length index.now) }
    ensures { result ≡ before_of index.now item }
{
    usize::from(index[SLOTS + item - 1])
}

// Puts an item into a slot.
pub fn put(index: &mut [u16], slot: usize, item: usize)
    requires slot_lt_slots { slot < slots }
    requires item_nonzero { (0 < item) × (slots + item ≤ length index.old) }
    requires item_bound { item < 65536 }
    ensures { index.new ≡ with_item index.old slot item }
{
    index[SLOTS + item - 1] = index[slot];
    index[slot] = item as u16;
}

// The row of `id` among the first `n`, or `n` where none of them has it: a walk of the rows that the index has in the slot of the id.
pub fn row_of(index: &[u16], ids: &[u32], n: usize, id: u32) -> usize
    requires n_in_bounds { n ≤ length ids.now }
    requires row_index { RowIndex index.now ids.now n }
    ensures { result ≡ position_of id (take n ids.now) }
{
    let mut k = newest(index, slot_of(id as usize));
    while 0 < k {
        if ids[k - 1] == id {
            return k - 1;
        }
        k = before(index, k);
    }
    n
}
