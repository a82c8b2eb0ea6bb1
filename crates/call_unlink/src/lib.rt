// Unlink over a mounted volume: a deletion record for what a path leads to.
#![tactic(auto)]

ghost use Rattle.std.specs.Prelude.{◌≡◌, List};
ghost use Rattle.calls.specs.Attempt.{number_of};
ghost use Rattle.calls.specs.Outcome.{outcome_of};
ghost use Rattle.calls.specs.Unlink.{unlink_of, image_unlinked};
ghost use Rattle.calls.specs.declared.Descriptor.{Descriptor};
ghost use Rattle.mount_state.specs.State.{Safe, Holds};

use calls::Refusal;
use mount_state::Mounted;
use path_find::find_below;
use record_read::NONE;
use write_inodes::rewrite_inode;

// Unlinks what a path leads to; what lies below a directory goes with it.
pub fn unlink_mounted<'a>(
    image: &mut [u8],
    tables: &[u32],
    m: Mounted,
    base: &'a [u8],
    path: &'a [u8],
) -> Result<(), Refusal>
    requires { Safe image.old m tables.now }
    ensures { (ds : List Descriptor) → Holds image.old ds m tables.now → (number_of (outcome_of result) ≡ unlink_of image.old ds base.now path.now) × (image.new ≡ image_unlinked image.old ds base.now path.now) }
{
    let id = find_below(image, tables, m, base, path)?;
    rewrite_inode(image, tables, m, id, NONE, b"")
}
