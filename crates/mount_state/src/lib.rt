// What a mounted volume is: its counts by value, and where its parts stand in one lent slice of 32-bit numbers.
// What the code relies on is `Safe`, and what the tables hold is `Holds` (specs/State.antt).
#![tactic(auto)]

ghost use Rattle.std.specs.Prelude.{◌≡◌, length};
ghost use Rattle.mount_state.specs.State.{Safe, inode_ids_in, inode_spots_in, block_ids_in, block_spots_in};

use area_damage::Damage;
use area_pass::AREA_ROWS;
use calls::{Descriptor, MOST_BLOCKS, MOST_INODES};
use table_rows::TakenRows;

// The tables: the rows of the file areas in columns, then of inodes the ids and the spots, then those of blocks.
pub const INODE_IDS: usize = AREA_ROWS;

pub const INODE_SPOTS: usize = INODE_IDS + MOST_INODES;

pub const BLOCK_IDS: usize = INODE_SPOTS + MOST_INODES;

pub const BLOCK_SPOTS: usize = BLOCK_IDS + MOST_BLOCKS;

pub const TABLES: usize = BLOCK_SPOTS + MOST_BLOCKS;

// What a mount answers: how many file areas, records, inodes and blocks there are, the damage of the file areas with its first stretch, and the
// scratch area.
#[derive(Clone, Copy)]
pub struct Mounted {
    pub files: usize,
    pub records: usize,
    pub inodes: usize,
    pub blocks: usize,
    pub damage: Damage,
    pub scratch: Descriptor,
}

impl Mounted {
    // The rows of inodes.
    pub fn inode_rows<'a>(self, image: &'a [u8], tables: &'a [u32]) -> TakenRows<'a>
        requires { Safe image.now self tables.now }
        ensures image { result.image.now ≡ image.now }
        ensures ids { result.ids.now ≡ inode_ids_in self tables.now }
        ensures spots { result.spots.now ≡ inode_spots_in self tables.now }
        ensures number { length result.ids.now ≡ self.inodes }
    {
        let ids_end = INODE_IDS + self.inodes;
        let spots_end = INODE_SPOTS + self.inodes;
        TakenRows {
            image,
            ids: &tables[INODE_IDS..ids_end],
            spots: &tables[INODE_SPOTS..spots_end],
        }
    }

    // The rows of blocks.
    pub fn block_rows<'a>(self, image: &'a [u8], tables: &'a [u32]) -> TakenRows<'a>
        requires { Safe image.now self tables.now }
        ensures image { result.image.now ≡ image.now }
        ensures ids { result.ids.now ≡ block_ids_in self tables.now }
        ensures spots { result.spots.now ≡ block_spots_in self tables.now }
        ensures number { length result.ids.now ≡ self.blocks }
    {
        let ids_end = BLOCK_IDS + self.blocks;
        let spots_end = BLOCK_SPOTS + self.blocks;
        TakenRows {
            image,
            ids: &tables[BLOCK_IDS..ids_end],
            spots: &tables[BLOCK_SPOTS..spots_end],
        }
    }
}
