// Refusals 5 and 6 over the places of the records of a volume, and the tables of its inodes and of its blocks in one lent part.
#![tactic(auto)]

ghost use Rattle.std.specs.Prelude.{◌≡◌, [], ◌∷◌, ◌++◌, ◌≤◌, ◌<◌, length, take};
ghost use Rattle.volume.specs.Counting.{all_agree};
ghost use Rattle.calls.specs.Attempt.{number_of};
ghost use Rattle.calls.specs.Outcome.{outcome_of};
ghost use Rattle.record_places.specs.Place.{by_place, Lies, AllLie};
ghost use Rattle.table_fill.specs.Gather.{AllGood, twins, Tabulates, Ready, Gathered};
ghost use Rattle.table_fill.specs.Parts.{tables_in, Room, Indexed};
ghost use Rattle.table_fill.specs.Twins.{slot_of_twins, TwinIndex, NoTwins};

use calls::{MOST_BLOCKS, MOST_INODES, MOST_RECORDS, Refusal};
use record_places::{id_at, is_block_at, same_bytes, sequence_at};
use table_index::{SLOTS, before, newest, put, slot_of};
use table_rows::{Updated, update};

// The rows of inodes, and those of both kinds: an id and a spot each.
pub const INODE_ROWS: usize = MOST_INODES + MOST_INODES;

pub const ALL_ROWS: usize = INODE_ROWS + MOST_BLOCKS + MOST_BLOCKS;

// The index of inode ids, that of both kinds of ids, one behind the other, and that of all records by id and sequence.
pub const INODE_INDEX: usize = SLOTS + MOST_INODES;

pub const ID_INDEX: usize = INODE_INDEX + SLOTS + MOST_BLOCKS;

pub const TWIN_INDEX: usize = SLOTS + MOST_RECORDS;

// By which id and sequence are made one key.
const SPREAD: usize = 40503;

// Whether the records at `p` and `q` have one id and one sequence.
fn are_twins(image: &[u8], p: u32, q: u32) -> bool
    requires lies { Lies image.now p }
    requires lies_2 { Lies image.now q }
    ensures { result ≡ twins (by_place image.now) p q }
{
    id_at(image, p) == id_at(image, q) && sequence_at(image, p) == sequence_at(image, q)
}

// The slot of the record at `p` in the index of all records: the same for all of its id and sequence.
fn twin_slot(image: &[u8], p: u32) -> usize
    requires { Lies image.now p }
    ensures { result ≡ slot_of_twins (by_place image.now) p }
{
    let id = id_at(image, p) as usize;
    let sequence = sequence_at(image, p) as usize;
    slot_of(id + sequence * SPREAD)
}

// Whether check 6 still passes with the record at `p` behind those at the first `n` places, of which `agreed` tells whether it passes.
// Where they agree, one of them with the id and the sequence of `p` speaks for all: one comparison is enough.
fn still_agree(image: &[u8], places: &[u16], twins: &[u16], n: usize, p: u32, agreed: bool) -> bool
    requires n_in_bounds { n ≤ length places.now }
    requires all_lie { AllLie image.now places.now n }
    requires twin_index { TwinIndex image.now places.now twins.now n }
    requires lies { Lies image.now p }
    requires agreed_value { agreed ≡ all_agree (by_place image.now) (take n places.now) }
    ensures { result ≡ all_agree (by_place image.now) (take n places.now ++ (p ∷ [])) }
{
    if !agreed {
        return false;
    }
    let mut k = newest(twins, twin_slot(image, p));
    while 0 < k {
        let q = u32::from(places[k - 1]);
        if are_twins(image, p, q) {
            return same_bytes(image, p, q);
        }
        k = before(twins, k);
    }
    true
}

// Shows the record at `p` to the table of its kind.
fn tabulate(
    image: &[u8],
    iwords: &mut [u64],
    bwords: &mut [u64],
    ids: &mut [u16],
    rows: &mut [u32],
    p: u32,
) -> Updated
    requires all_good { AllGood image.now (tables_in iwords.old bwords.old rows.old) }
    requires room { Room iwords.old bwords.old rows.old }
    requires indexed_2 { Indexed iwords.old bwords.old ids.old rows.old }
    requires lies { Lies image.now p }
    ensures shown { Tabulates image.now p (tables_in iwords.old bwords.old rows.old) result (tables_in iwords.new bwords.new rows.new) }
    ensures indexed { Indexed iwords.new bwords.new ids.new rows.new }
{
    if is_block_at(image, p) {
        return update(
            image,
            bwords,
            &mut ids[INODE_INDEX..ID_INDEX],
            &mut rows[INODE_ROWS..ALL_ROWS],
            MOST_BLOCKS,
            p,
        );
    }
    update(
        image,
        iwords,
        &mut ids[0..INODE_INDEX],
        &mut rows[0..INODE_ROWS],
        MOST_INODES,
        p,
    )
}

// Puts the records at the first `n` places into empty tables, unless refusal 5 or 6 is theirs; `ids` and `twins` are empty indexes.
// One pass: a full table answers 5 at once, and a clash is only noted, so that 5 comes before 6 wherever the records lie.
// A record that counts now has a sequence greater than all before of its id, so it has no twin to be compared with.
pub fn gather(
    image: &[u8],
    places: &[u16],
    n: usize,
    iwords: &mut [u64],
    bwords: &mut [u64],
    ids: &mut [u16],
    rows: &mut [u32],
    twins: &mut [u16],
) -> Result<(), Refusal>
    requires ready { Ready image.now places.now n (tables_in iwords.old bwords.old rows.old) }
    requires room { Room iwords.old bwords.old rows.old }
    requires indexed { Indexed iwords.old bwords.old ids.old rows.old }
    requires no_twins { NoTwins image.now places.now twins.old n }
    ensures { Gathered image.now (take n places.now) (tables_in iwords.old bwords.old rows.old) (number_of (outcome_of result)) (tables_in iwords.new bwords.new rows.new) }
{
    let mut agreed = true;
    for i in 0..n {
        let p = u32::from(places[i]);
        match tabulate(image, iwords, bwords, ids, rows, p) {
            Updated::Full => return Err(Refusal::TooManyIds),
            Updated::Newer => {}
            Updated::Older => agreed = still_agree(image, places, twins, i, p, agreed),
        }
        put(twins, twin_slot(image, p), i + 1);
    }
    if agreed {
        Ok(())
    } else {
        Err(Refusal::Conflict)
    }
}
