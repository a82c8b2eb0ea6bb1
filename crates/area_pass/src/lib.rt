// One pass over the file areas: the places in the image of all their records, and what the reading of each area comes to.
#![tactic(auto)]

ghost use Rattle.std.specs.Prelude.{◌≡◌, ◌≤◌, length, take};
ghost use Rattle.calls.specs.Report.{damage_in};
ghost use Rattle.area_damage.specs.Damage.{damage_of};
ghost use Rattle.area_list.specs.Described.{described};
ghost use Rattle.table_rows.specs.Parts.{part};
ghost use Rattle.area_pass.specs.Listing.{places_in, Room, Listed};
ghost use Rattle.area_pass.specs.Reading.{Reads};
ghost use Rattle.area_pass.specs.Rows.{spans_at, Lent, Readings};

use area_damage::Damage;
use area_erased::erased_end;
use area_read::{HEADER_SIZE, next_record};
use calls::MOST_AREAS;

// The rows of the file areas in columns: starts first, then spans, stretches of damage, and where free space starts.
pub const SPANS: usize = MOST_AREAS;

pub const STRETCHES: usize = SPANS + MOST_AREAS;

pub const FREE: usize = STRETCHES + MOST_AREAS;

pub const AREA_ROWS: usize = FREE + MOST_AREAS;

// How many places are listed, and the reading of an area: its damage, and where free space starts.
#[derive(Clone, Copy)]
pub struct Pass {
    pub count: usize,
    pub damage: Damage,
    pub free: usize,
}

// How many places are listed, and the damage of all areas.
#[derive(Clone, Copy)]
pub struct Listing {
    pub count: usize,
    pub damage: Damage,
}

// Puts the places of the records of an area that starts at `base` behind the first `n` of `places`; of its damage, number `stretch` is kept, from 0.
pub fn list_area(area: &[u8], base: usize, places: &mut [u16], n: usize, stretch: u32) -> Pass
    requires { Room area.now base places.old n }
    ensures listed { Listed area.now base places.old n result.count places.new }
    ensures read { Reads area.now stretch result.damage result.free }
{
    let written = area.len() - erased_end(&area[HEADER_SIZE..]);
    let mut count = n;
    let mut at = HEADER_SIZE;
    let mut damage = Damage::default();
    while let Some(next) = next_record(area, at, written) {
        damage = damage.with_stretch(stretch, at, next.at - at);
        places[count] = (base + next.at) as u16;
        count += 1;
        at = next.at + next.size;
    }
    let free = at.max(written);
    damage = damage.with_stretch(stretch, at, free - at);
    Pass {
        count,
        damage,
        free,
    }
}

// Puts the places of the records of all the file areas into `places`, and what the writers ask of their readings into their rows; answers how
// many places there are, and the damage.
pub fn list_areas(image: &[u8], rows: &mut [u32], files: usize, places: &mut [u16]) -> Listing
    requires { Lent image.now rows.old files places.old }
    ensures listed { take result.count places.new ≡ places_in image.now (described (part 0 files rows.old) (part spans_at files rows.old)) }
    ensures within { result.count ≤ length places.new }
    ensures read { Readings image.now files rows.old rows.new }
    ensures damage { result.damage ≡ damage_of 0 (damage_in image.now (described (part 0 files rows.old) (part spans_at files rows.old))) }
{
    let mut count = 0;
    let mut damage = Damage::default();
    for i in 0..files {
        let offset = rows[i];
        let start = offset as usize;
        let end = start + rows[SPANS + i] as usize;
        let pass = list_area(&image[start..end], start, places, count, 0);
        count = pass.count;
        damage = damage.joined(offset, pass.damage);
        rows[STRETCHES + i] = pass.damage.stretches;
        rows[FREE + i] = pass.free as u32;
    }
    Listing { count, damage }
}
