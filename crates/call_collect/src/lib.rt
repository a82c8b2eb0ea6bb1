// The collection of a mounted volume. All is decided before the first store.
#![tactic(auto)]

ghost use Rattle.std.specs.Prelude.{◌≡◌, List, ◌<◌};
ghost use Rattle.calls.specs.Attempt.{number_of};
ghost use Rattle.calls.specs.Outcome.{outcome_of};
ghost use Rattle.calls.specs.Collect.{collected, collect_of, image_collected};
ghost use Rattle.calls.specs.declared.Descriptor.{Descriptor};
ghost use Rattle.mount_state.specs.State.{Safe, Holds, SafePlaces, HoldsPlaces};
ghost use Rattle.call_collect.specs.Mounted.{file_at};

use area_pass::SPANS;
use calls::Refusal;
use collect_copies::{MOST_COPIES, list_copies};
use collect_source::choose_source;
use collect_stores::{fits, move_records};
use mount_state::Mounted;

// Collects the file area of a row of a mounted volume into scratch. Where the copies do not fit, which the tables of no image that mounts bring
// about, it stores nothing and answers as if there were no source.
fn collect_from(
    image: &mut [u8],
    tables: &[u32],
    places: &[u16],
    m: Mounted,
    source: usize,
) -> Result<(), Refusal>
    requires safe { Safe image.old m tables.now }
    requires safe_places { SafePlaces image.old m places.now }
    requires source_lt_files { source < m.files }
    ensures { (ds : List Descriptor) → Holds image.old ds m tables.now → HoldsPlaces image.old ds m places.now → (number_of (outcome_of result) ≡ 0) × (image.new ≡ collected image.old ds m.scratch (file_at tables.now source)) }
{
    let mut copies = [0u16; MOST_COPIES];
    let offset = tables[source];
    let span = tables[SPANS + source];
    let k = list_copies(
        image,
        offset,
        span,
        &places[..m.records],
        tables,
        m.inodes,
        m.blocks,
        &mut copies,
    );
    if !fits(image, m.scratch, &copies[..k]) {
        return Err(Refusal::NoSource);
    }
    move_records(image, offset, span, m.scratch, &copies[..k]);
    Ok(())
}

// Collects a mounted volume.
pub fn collect_mounted(
    image: &mut [u8],
    tables: &[u32],
    places: &[u16],
    m: Mounted,
) -> Result<(), Refusal>
    requires safe { Safe image.old m tables.now }
    requires safe_places { SafePlaces image.old m places.now }
    ensures { (ds : List Descriptor) → Holds image.old ds m tables.now → HoldsPlaces image.old ds m places.now → (number_of (outcome_of result) ≡ collect_of image.old ds) × (image.new ≡ image_collected image.old ds) }
{
    let n = m.files;
    let end = SPANS + n;
    let Some(source) = choose_source(image, &tables[..n], &tables[SPANS..end], m.scratch) else {
        return Err(Refusal::NoSource);
    };
    collect_from(image, tables, places, m, source)
}
