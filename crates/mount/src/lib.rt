// Mounting: checks 1 to 7, the places of all records, and the tables of the inodes and of the blocks that count.
#![tactic(auto)]

ghost use Rattle.std.specs.Prelude.{◌≡◌};
ghost use Rattle.area_list.specs.Numbers.{area_list};
ghost use Rattle.mount_state.specs.State.{Lent, Mounts};
ghost use Rattle.mount.specs.Filling.{Ready, Fills};

use area_kinds::check_areas;
use area_pass::list_areas;
use calls::{MOST_BLOCKS, MOST_INODES, Refusal};
use mount_state::{INODE_IDS, Mounted, TABLES};
use record_read::ROOT;
use table_fill::{ID_INDEX, TWIN_INDEX, gather};
use table_rows::find;
use table_words::{BITS, taken};

// The words that say which rows are taken.
const INODE_WORDS: usize = MOST_INODES / BITS;

const BLOCK_WORDS: usize = MOST_BLOCKS / BITS;

// What checks 5 to 7 leave: how many rows of inodes and of blocks are taken.
#[derive(Clone, Copy)]
pub struct Filled {
    pub inodes: usize,
    pub blocks: usize,
}

// Checks 5 to 7 of the records at the first `n` places, and the tables of those that count.
fn fill_tables(image: &[u8], places: &[u16], n: usize, rows: &mut [u32]) -> Result<Filled, Refusal>
    requires { Ready image.now places.now n rows.old }
    ensures { Fills image.now places.now n result rows.new }
{
    let mut iwords = [0u64; INODE_WORDS];
    let mut bwords = [0u64; BLOCK_WORDS];
    let mut ids = [0u16; ID_INDEX];
    let mut twins = [0u16; TWIN_INDEX];
    gather(
        image,
        places,
        n,
        &mut iwords,
        &mut bwords,
        &mut ids,
        rows,
        &mut twins,
    )?;
    let inodes = taken(&iwords);
    let blocks = taken(&bwords);
    let end = MOST_INODES + inodes;
    let filled = &rows[..];
    let Some(_) = find(&filled[..inodes], &filled[MOST_INODES..end], ROOT) else {
        return Err(Refusal::NoRoot);
    };
    Ok(Filled { inodes, blocks })
}

// Checks 1 to 7 of an image and a list of areas. Where none refuses, the lent slices hold the mounted volume.
pub fn mount(
    image: &[u8],
    areas: &[u32],
    tables: &mut [u32],
    places: &mut [u16],
) -> Result<Mounted, Refusal>
    requires { Lent tables.old places.old }
    ensures { Mounts image.now (area_list areas.now) result tables.new places.new }
{
    let found = check_areas(image, areas, tables)?;
    let listing = list_areas(image, tables, found.files, places);
    let filled = fill_tables(image, places, listing.count, &mut tables[INODE_IDS..TABLES])?;
    Ok(Mounted {
        files: found.files,
        records: listing.count,
        inodes: filled.inodes,
        blocks: filled.blocks,
        damage: listing.damage,
        scratch: found.scratch,
    })
}
