// The report of a mounted volume: distinct inode ids, live ones, damage stretches and their bytes, and the first stretch.
#![tactic(auto)]

ghost use Rattle.std.specs.Prelude.{◌≡◌, List};
ghost use Rattle.calls.specs.Report.{report_of};
ghost use Rattle.calls.specs.declared.Descriptor.{Descriptor};
ghost use Rattle.mount_state.specs.State.{Safe, Holds};

use calls::Report;
use inode_fate::live_count;
use mount_state::Mounted;

// The report, by the rows of inodes and the damage that the mount found: no area is read again.
pub fn report_mounted(image: &[u8], tables: &[u32], m: Mounted) -> Report
    requires { Safe image.now m tables.now }
    ensures { (ds : List Descriptor) → Holds image.now ds m tables.now → result ≡ report_of image.now ds }
{
    let live = live_count(&m.inode_rows(image, tables));
    let damage = m.damage;
    Report {
        number: 0,
        inodes: m.inodes as u32,
        live: live as u32,
        stretches: damage.stretches,
        skipped: damage.skipped,
        first_offset: damage.offset,
        first_length: damage.length,
    }
}
