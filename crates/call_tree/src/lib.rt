// The tree of a mounted volume, as text. Document 02, T-07.
#![tactic(auto)]

ghost use Rattle.std.specs.Prelude.{◌≡◌, List, ℕ, ◌≤◌, length};
ghost use Rattle.std.proofs.Math.Option.{some};
ghost use Rattle.format.specs.Ids.{root_id};
ghost use Rattle.volume.specs.Lists.{sort};
ghost use Rattle.volume.specs.Counting.{Volume, inode_of};
ghost use Rattle.volume.specs.Listing.{most_depth, show_directory, tree_text};
ghost use Rattle.volume_laws.specs.Listing.{ids_shown};
ghost use Rattle.calls.specs.Mount.{most_inodes, most_blocks};
ghost use Rattle.calls.specs.Answers.{tree_seen};
ghost use Rattle.calls.specs.declared.Descriptor.{Descriptor};
ghost use Rattle.record_places.specs.Place.{by_place};
ghost use Rattle.table_rows.specs.Rows.{BlockTable};
ghost use Rattle.inode_order.specs.Order.{place_before, InodeAt, Inodes};
ghost use Rattle.text_write.specs.Clip.{Wrote, longest_text};
ghost use Rattle.tree_show.specs.Show.{Lists};
ghost use Rattle.mount_state.specs.State.{Safe, Holds};
ghost use Rattle.call_tree.specs.Outcome.{Answers};

use calls::Refusal;
use inode_order::order_inodes;
use mount_state::Mounted;
use record_read::ROOT;
use table_rows::TakenRows;
use tree_show::show_tree;

// Puts the inodes at their places in order, and shows the tree of which the root is at `root`, by the rows of blocks.
fn show_ordered(
    blocks: &TakenRows<'_>,
    inodes: &[u32],
    order: &mut [u32],
    text: &mut [u8],
    root: u32,
) -> usize
    requires inodes { Inodes blocks.now.image.now inodes.now }
    requires inodes_len_bound { length inodes.now ≤ most_inodes }
    requires block_table { BlockTable blocks.now.image.now blocks.now.ids.now blocks.now.spots.now }
    requires ids_len_bound { length blocks.now.ids.now ≤ most_blocks }
    requires inodes_in_bounds { length inodes.now ≤ length order.old }
    requires inode_at { InodeAt blocks.now.image.now root }
    ensures within { result ≤ longest_text }
    ensures told { (v : Volume ℕ) → Lists blocks.now.image.now blocks.now.ids.now blocks.now.spots.now (sort (place_before blocks.now.image.now) inodes.now) v → inode_of (by_place blocks.now.image.now) v root_id ≡ some root → length (ids_shown (show_directory (by_place blocks.now.image.now) v most_depth root_id)) ≤ length inodes.now → Wrote text.old 0 (tree_text (by_place blocks.now.image.now) v) text.new result }
{
    let n = inodes.len();
    order_inodes(blocks.image, inodes, order);
    show_tree(blocks, &order[..n], text, root)
}

// The tree of a mounted volume: as much of its text as fits goes into the front of `text`, and how long all of it is is answered; `order` is lent to put
// the inodes in order.
pub fn tree_mounted(
    image: &[u8],
    tables: &[u32],
    m: Mounted,
    order: &mut [u32],
    text: &mut [u8],
) -> Result<u32, Refusal>
    requires safe { Safe image.now m tables.now }
    requires order_len { length order.old ≡ most_inodes }
    ensures { (ds : List Descriptor) → Holds image.now ds m tables.now → Answers image.now ds text.old text.new (tree_seen result) }
{
    let inodes = m.inode_rows(image, tables);
    let Some(root) = inodes.find(ROOT) else {
        return Err(Refusal::NoRoot);
    };
    let blocks = m.block_rows(image, tables);
    let length = show_ordered(&blocks, inodes.spots, order, text, root);
    Ok(length as u32)
}
