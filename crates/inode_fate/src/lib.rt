// Whether an inode is live, dead or an orphan, by the taken rows of the table of the inodes that count.
#![tactic(auto)]

ghost use Rattle.std.specs.Prelude.{◌≡◌, length};
ghost use Rattle.record_places.specs.Place.{by_place};
ghost use Rattle.volume.specs.Fate.{is_live, is_dead, ascend};
ghost use Rattle.table_rows.specs.Table.{found};
ghost use Rattle.inode_fate.specs.Fates.{meaning, step_of, parent_up, fate_by, live_rows};

use record_places::{id_at, link_at};
use record_read::{NONE, ROOT};
use std::ops::ControlFlow;
use table_rows::TakenRows;

#[derive(Clone, Copy, PartialEq, Eq)]
pub enum Fate {
    Live,
    Dead,
    Orphan,
}

// One step up the chain of parents: it ends with a fate, or goes on with the id of the parent.
pub fn ascend(rows: &TakenRows<'_>, id: u32) -> ControlFlow<Fate, u32>
    ensures { step_of result ≡ parent_up (by_place rows.now.image.now) (ascend (by_place rows.now.image.now) (found (length rows.now.ids.now) rows.now.ids.now rows.now.spots.now id)) }
{
    let Some(p) = rows.find(id) else {
        return ControlFlow::Break(Fate::Orphan);
    };
    if id_at(rows.image, p) == ROOT {
        return ControlFlow::Break(Fate::Live);
    }
    let parent = link_at(rows.image, p);
    if parent == NONE {
        return ControlFlow::Break(Fate::Dead);
    }
    ControlFlow::Continue(parent)
}

// The fate of the inode of an id. A chain of parents that has no loop is no longer than the table has rows.
pub fn fate_of(rows: &TakenRows<'_>, id: u32) -> Fate
    ensures { meaning result ≡ fate_by (by_place rows.now.image.now) (length rows.now.ids.now) rows.now.ids.now rows.now.spots.now id }
{
    let mut at = id;
    for _ in 0..rows.ids.len() {
        match ascend(rows, at) {
            ControlFlow::Break(fate) => return fate,
            ControlFlow::Continue(parent) => at = parent,
        }
    }
    Fate::Orphan // it goes on, so it loops
}

// Whether a fate is to live.
pub fn lives(f: Fate) -> bool
    ensures { result ≡ is_live (meaning f) }
{
    f == Fate::Live
}

// Whether a fate is to be dead.
pub fn is_dead(f: Fate) -> bool
    ensures { result ≡ is_dead (meaning f) }
{
    f == Fate::Dead
}

// How many ids of the table are live.
pub fn live_count(rows: &TakenRows<'_>) -> usize
    ensures { result ≡ length (live_rows (by_place rows.now.image.now) (length rows.now.ids.now) rows.now.ids.now rows.now.spots.now) }
{
    rows.ids
        .iter()
        .filter(|id| lives(fate_of(rows, **id)))
        .count()
}
