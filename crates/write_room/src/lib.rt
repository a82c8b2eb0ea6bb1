// Where new records go: the free space of the clean file areas, looked up in their rows, and the first of it that has room.
#![tactic(auto)]

ghost use Rattle.std.specs.Prelude.{◌≡◌, List, ◌≤◌, length, take};
ghost use Rattle.calls.specs.Areas.{largest_image, file_areas};
ghost use Rattle.calls.specs.Storing.{spaces, first_fit};
ghost use Rattle.calls.specs.declared.Descriptor.{Descriptor};
ghost use Rattle.table_rows.specs.Answer.{meant};
ghost use Rattle.mount_state.specs.State.{Safe, Holds};
ghost use Rattle.write_room.specs.Spaces.{spaces_of, fit_of, place_in, EndsAt};
ghost use Rattle.write_room.specs.First.{First};
ghost use Rattle.write_room.specs.Rows.{AreaRows, row_spaces};

use area_pass::{FREE, SPANS, STRETCHES};
use calls::MOST_AREAS;
use mount_state::Mounted;

// Puts the free space of the clean areas, in the order of their rows, into `froms` and `ends`; answers how many there are. A damaged area waits for collection.
pub fn find_spaces(tables: &[u32], files: usize, froms: &mut [u32], ends: &mut [u32]) -> usize
    requires area_rows { AreaRows files tables.now }
    requires files_in_bounds { (files ≤ length froms.old) × (files ≤ length ends.old) }
    ensures are { spaces_of (take result froms.new) (take result ends.new) ≡ row_spaces tables.now 0 files }
    ensures within { (result ≤ length froms.new) × (result ≤ length ends.new) }
{
    let mut k = 0;
    for i in 0..files {
        if tables[STRETCHES + i] == 0 {
            froms[k] = tables[i] + tables[FREE + i];
            ends[k] = tables[i] + tables[SPANS + i];
            k += 1;
        }
    }
    k
}

// The first space with room for `n` bytes, if any.
fn first_fit(froms: &[u32], ends: &[u32], n: usize) -> Option<usize>
    requires { (length froms.now ≡ length ends.now) × (n ≤ largest_image) }
    ensures { First n froms.now ends.now result }
{
    froms
        .iter()
        .zip(ends)
        .position(|(from, end)| *from as usize + n <= *end as usize)
}

// Takes `n` bytes from the first space with room, which then starts behind them; answers where they are.
pub fn take_place(froms: &mut [u32], ends: &[u32], n: usize) -> Option<u32>
    requires { (length froms.old ≡ length ends.now) × (n ≤ largest_image) }
    ensures { first_fit n (spaces_of froms.old ends.now) ≡ fit_of result (spaces_of froms.new ends.now) }
{
    let i = first_fit(froms, ends, n)?;
    let at = froms[i];
    froms[i] = (at as usize + n) as u32;
    Some(at)
}

// The place of one record of `n` bytes: in the first clean file area with room.
pub fn place_one(image: &[u8], tables: &[u32], m: Mounted, n: usize) -> Option<u32>
    requires safe { Safe image.now m tables.now }
    requires n_le_largest_image { n ≤ largest_image }
    ensures is { (ds : List Descriptor) → Holds image.now ds m tables.now → meant result ≡ place_in (first_fit n (spaces image.now (file_areas image.now ds))) }
    ensures inside { EndsAt n (length image.now) result }
{
    let mut froms = [0u32; MOST_AREAS];
    let mut ends = [0u32; MOST_AREAS];
    let count = find_spaces(tables, m.files, &mut froms, &mut ends);
    take_place(&mut froms[..count], &ends[..count], n)
}
