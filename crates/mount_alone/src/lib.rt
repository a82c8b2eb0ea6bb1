// The mount alone, for tests to link: its tables are compared with those of an ordinary mount, and its time is taken.
#![tactic(auto)]

ghost use Rattle.std.specs.Prelude.{◌≡◌};
ghost use Rattle.area_list.specs.Numbers.{area_list};
ghost use Rattle.calls.specs.Mount.{mount_number};
ghost use Rattle.mount_state.specs.State.{Lent};

use mount::mount;

// Stores as many of the numbers as there is room for.
fn put_all(numbers: &mut [u32], list: [u32; 10]) {
    for (n, x) in numbers.iter_mut().zip(list) {
        *n = x;
    }
}

// Mounts into `tables` and `places`, and answers the number of refusal. After a mount, `numbers` has how many file areas, records, inodes and
// blocks there are, the damage in four numbers, and the scratch area; after a refusal it is as it was. The contract speaks of the answer alone: tests
// compare the rest.
#[unsafe(no_mangle)]
pub extern "C" fn mount_alone(
    image: &[u8],
    areas: &[u32],
    tables: &mut [u32],
    places: &mut [u16],
    numbers: &mut [u32],
) -> u32
    requires { Lent tables.old places.old }
    ensures { result ≡ mount_number image.now (area_list areas.now) }
{
    let m = match mount(image, areas, tables, places) {
        Ok(m) => m,
        Err(refusal) => return refusal.number(),
    };
    put_all(
        numbers,
        [
            m.files as u32,
            m.records as u32,
            m.inodes as u32,
            m.blocks as u32,
            m.damage.stretches,
            m.damage.skipped,
            m.damage.offset,
            m.damage.length,
            m.scratch.offset,
            m.scratch.length,
        ],
    );
    0
}
