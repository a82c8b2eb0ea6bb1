// The report of one area of a list: what its header says, and what its reading comes to, whatever its kind. Nothing is mounted.
#![tactic(auto)]

ghost use Rattle.std.specs.Prelude.{◌≡◌, true, ◌≤◌, length};
ghost use Rattle.calls.specs.Areas.{good_area};
ghost use Rattle.calls.specs.Mount.{most_records};
ghost use Rattle.calls.specs.Answers.{area_report_seen};
ghost use Rattle.calls.specs.AreaReport.{area_report_of};
ghost use Rattle.area_list.specs.Numbers.{area_list};
ghost use Rattle.call_area_report.specs.Header.{HeaderSays};

use area_list::{area_at, area_end, count_good_areas};
use area_pass::list_area;
use area_read::{AreaKind, area_count, area_id, area_kind};
use calls::{AREA_FILE, AREA_PASSED_OVER, AREA_SCRATCH, AreaReport, Descriptor, Refusal};

// What a header says; without a valid one, zeros.
#[derive(Clone, Copy)]
pub struct Header {
    pub kind: u32,
    pub id: u32,
    pub count: u32,
}

// What the header of a good area says.
fn header_of(image: &[u8], area: Descriptor) -> Header
    requires { good_area (length image.now) area ≡ true }
    ensures { HeaderSays image.now area result }
{
    let kind = area_kind(image, area);
    let id = u32::from(area_id(image, area.offset));
    let count = u32::from(area_count(image, area.offset));
    match kind {
        AreaKind::File => Header {
            kind: AREA_FILE,
            id,
            count,
        },
        AreaKind::Scratch => Header {
            kind: AREA_SCRATCH,
            id,
            count,
        },
        AreaKind::Invalid => Header {
            kind: AREA_PASSED_OVER,
            id: 0,
            count: 0,
        },
    }
}

// The report of the area `index` of a list, with its damage stretch `stretch`, both from 0. What `places` holds afterwards has no meaning.
pub fn report_area(
    image: &[u8],
    areas: &[u32],
    index: u32,
    stretch: u32,
    places: &mut [u16],
) -> Result<AreaReport, Refusal>
    requires { most_records ≤ length places.old }
    ensures { area_report_seen result ≡ area_report_of image.now (area_list areas.now) index stretch }
{
    let n = count_good_areas(image, areas);
    let i = index as usize;
    if n <= i {
        return Err(Refusal::BadAreas);
    }
    let area = area_at(areas, i);
    let header = header_of(image, area);
    let start = area.offset as usize;
    let end = area_end(area);
    let pass = list_area(&image[start..end], 0, places, 0, stretch);
    let damage = pass.damage;
    Ok(AreaReport {
        number: 0,
        kind: header.kind,
        id: header.id,
        count: header.count,
        records: pass.count as u32,
        stretches: damage.stretches,
        skipped: damage.skipped,
        free: area.length - pass.free as u32,
        offset: damage.offset,
        length: damage.length,
    })
}
