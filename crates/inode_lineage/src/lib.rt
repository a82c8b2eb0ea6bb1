// Whether an inode is, or lies above, another, by the taken rows of the table of the inodes that count.
#![tactic(auto)]

ghost use Rattle.std.specs.Prelude.{◌≡◌, length};
ghost use Rattle.record_places.specs.Place.{by_place};
ghost use Rattle.calls.specs.Storing.{is_among};
ghost use Rattle.inode_lineage.specs.Lineage.{lineage_by};

use inode_fate::ascend;
use std::ops::ControlFlow;
use table_rows::TakenRows;

// Whether the inode `sought` is that of an id or one of its ancestors.
pub fn in_lineage(rows: &TakenRows<'_>, id: u32, sought: u32) -> bool
    ensures { result ≡ is_among sought (lineage_by (by_place rows.now.image.now) (length rows.now.ids.now) rows.now.ids.now rows.now.spots.now id) }
{
    let mut at = id;
    for _ in 0..rows.ids.len() {
        if at == sought {
            return true;
        }
        let ControlFlow::Continue(parent) = ascend(rows, at) else {
            return false;
        };
        at = parent;
    }
    at == sought
}
