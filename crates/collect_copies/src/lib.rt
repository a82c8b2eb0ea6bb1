// The records that a collection copies: those that count and lie in the source area, each once, but for the dead ones that nothing else needs.
#![tactic(auto)]

ghost use Rattle.std.specs.Prelude.{◌≡◌, ◌≤◌, length, take};
ghost use Rattle.record_places.specs.Place.{block_at, Lies, AllLie};
ghost use Rattle.collect_copies.specs.Copied.{table_of, tables_of, Rowed, most_copies, inside, holds, unheld, bearer, dropped, counts_in, copied, copied_places, none_same, Lent};

use calls::{MOST_BLOCKS, MOST_INODES};
use inode_fate::{fate_of, is_dead};
use mount_state::{BLOCK_IDS, BLOCK_SPOTS, INODE_IDS, INODE_SPOTS};
use record_places::{id_at, is_block_at, link_at, same_bytes};
use table_rows::TakenRows;

// The most copies that there can be: each is of an id of its own.
pub const MOST_COPIES: usize = MOST_INODES + MOST_BLOCKS;

// Whether a place is among the `span` bytes from `offset` on.
#[tactic(auto, using(crate::specs::Steps::inside_before, crate::specs::Steps::inside_from))]
fn is_inside(offset: u32, span: u32, p: u32) -> bool
    ensures { result ≡ inside offset span p }
{
    offset <= p && p - offset < span
}

// Whether the record at `q` keeps the dead record of an id, a block or an inode; `near` tells whether `q` lies in the source.
// Their own records in the source keep neither: they go with it.
#[tactic(auto, unfolding(crate::specs::Copied::holds))]
fn holds(image: &[u8], id: u32, block: bool, near: bool, q: u32) -> bool
    requires { Lies image.now q }
    ensures { result ≡ holds image.now id block near q }
{
    if id_at(image, q) == id {
        return !near;
    }
    !block && link_at(image, q) == id
}

// Whether no record keeps the dead record of an id. It is never inlined: a loop over every record for each dead one, it keeps its bounds in registers
// only by itself.
#[inline(never)]
fn is_unheld(image: &[u8], offset: u32, span: u32, places: &[u16], id: u32, block: bool) -> bool
    requires { AllLie image.now places.now (length places.now) }
    ensures { result ≡ unheld image.now offset span places.now id block }
{
    places.iter().all(|q| {
        let q = u32::from(*q);
        !holds(image, id, block, is_inside(offset, span, q), q)
    })
}

// The id of the inode whose fate the record at `p` has.
fn bearer(image: &[u8], p: u32) -> u32
    requires { Lies image.now p }
    ensures { result ≡ bearer image.now p }
{
    if is_block_at(image, p) {
        link_at(image, p)
    } else {
        id_at(image, p)
    }
}

// Whether the record at `p` is dead and nothing else needs it, by the rows of inodes.
#[tactic(auto, unfolding(crate::specs::Copied::dropped))]
fn is_dropped(rows: &TakenRows<'_>, offset: u32, span: u32, places: &[u16], p: u32) -> bool
    requires all_lie { AllLie rows.now.image.now places.now (length places.now) }
    requires lies { Lies rows.now.image.now p }
    ensures { result ≡ dropped rows.now.image.now offset span places.now (record { ids = rows.now.ids.now; spots = rows.now.spots.now }) p }
{
    let image = rows.image;
    let fate = fate_of(rows, bearer(image, p));
    is_dead(fate)
        && is_unheld(
            image,
            offset,
            span,
            places,
            id_at(image, p),
            is_block_at(image, p),
        )
}

// Whether the record at `p` has the bytes of the one that the rows hold for its id.
fn counts_in(rows: &TakenRows<'_>, p: u32) -> bool
    requires { Lies rows.now.image.now p }
    ensures { result ≡ counts_in rows.now.image.now (record { ids = rows.now.ids.now; spots = rows.now.spots.now }) p }
{
    let Some(q) = rows.find(id_at(rows.image, p)) else {
        return false;
    };
    same_bytes(rows.image, p, q)
}

// Whether the record at `p` counts, by the rows of its kind.
fn counts(image: &[u8], tables: &[u32], inodes: usize, blocks: usize, p: u32) -> bool
    requires rowed { Rowed image.now inodes blocks tables.now }
    requires lies { Lies image.now p }
    ensures { result ≡ counts_in image.now (table_of (block_at image.now p) (tables_of inodes blocks tables.now)) p }
{
    if is_block_at(image, p) {
        let ids_end = BLOCK_IDS + blocks;
        let spots_end = BLOCK_SPOTS + blocks;
        let rows = TakenRows {
            image,
            ids: &tables[BLOCK_IDS..ids_end],
            spots: &tables[BLOCK_SPOTS..spots_end],
        };
        return counts_in(&rows, p);
    }
    let ids_end = INODE_IDS + inodes;
    let spots_end = INODE_SPOTS + inodes;
    let rows = TakenRows {
        image,
        ids: &tables[INODE_IDS..ids_end],
        spots: &tables[INODE_SPOTS..spots_end],
    };
    counts_in(&rows, p)
}

// Whether a collection of the source copies the record at `p`, or one of the same bytes.
fn is_copied(
    image: &[u8],
    offset: u32,
    span: u32,
    places: &[u16],
    tables: &[u32],
    inodes: usize,
    blocks: usize,
    p: u32,
) -> bool
    requires all_lie { AllLie image.now places.now (length places.now) }
    requires rowed { Rowed image.now inodes blocks tables.now }
    requires lies { Lies image.now p }
    ensures { result ≡ copied image.now offset span places.now (tables_of inodes blocks tables.now) p }
{
    let ids_end = INODE_IDS + inodes;
    let spots_end = INODE_SPOTS + inodes;
    let rows = TakenRows {
        image,
        ids: &tables[INODE_IDS..ids_end],
        spots: &tables[INODE_SPOTS..spots_end],
    };
    is_inside(offset, span, p)
        && counts(image, tables, inodes, blocks, p)
        && !is_dropped(&rows, offset, span, places, p)
}

// Whether no record listed has the bytes of the one at `p`.
fn is_new(image: &[u8], listed: &[u16], p: u32) -> bool
    requires all_lie { AllLie image.now listed.now (length listed.now) }
    requires lies { Lies image.now p }
    ensures { result ≡ none_same image.now listed.now p }
{
    listed.iter().all(|q| !same_bytes(image, u32::from(*q), p))
}

// Stores the places of the copies, in order, in the first places of `copies` and answers their number.
pub fn list_copies(
    image: &[u8],
    offset: u32,
    span: u32,
    places: &[u16],
    tables: &[u32],
    inodes: usize,
    blocks: usize,
    copies: &mut [u16],
) -> usize
    requires { Lent image.now places.now inodes blocks tables.now copies.old }
    ensures { (result ≤ most_copies) × (take result copies.new ≡ copied_places image.now offset span places.now (tables_of inodes blocks tables.now)) }
{
    let mut k = 0;
    for place in places {
        let p = u32::from(*place);
        if is_copied(image, offset, span, places, tables, inodes, blocks, p)
            && is_new(image, &copies[..k], p)
        {
            copies[k] = *place;
            k += 1;
        }
    }
    k
}
