// Checks 1 to 4 in order, and the areas that a volume is made of: its file areas, in the first columns of the rows of areas, and its scratch area.
#![tactic(auto)]

ghost use Rattle.std.specs.Prelude.{◌≡◌, ◌+◌, ◌≤◌, length, drop, leb};
ghost use Rattle.volume.specs.Lists.{all};
ghost use Rattle.calls.specs.Areas.{most_areas};
ghost use Rattle.area_list.specs.Numbers.{paired, area_list};
ghost use Rattle.calls.specs.Mount.{shared_area_id};
ghost use Rattle.area_list.specs.Described.{described};
ghost use Rattle.area_list.specs.Good.{Good};
ghost use Rattle.area_pass.specs.Rows.{spans_at};
ghost use Rattle.area_kinds.specs.Checks.{KindsAnswer, Checked};
ghost use Rattle.area_kinds.specs.Kinds.{Room, Sorted, one_more, other_id};

use area_list::{area_at, count_good_areas};
use area_pass::SPANS;
use area_read::{AreaKind, area_id, area_kind};
use calls::{Descriptor, Refusal};

// The scratch areas found: a volume has one.
#[derive(Clone, Copy)]
pub enum ScratchFound {
    Missing,
    One(Descriptor),
    Several,
}

impl ScratchFound {
    // With one scratch area more.
    fn with(self, area: Descriptor) -> ScratchFound
        ensures { result ≡ one_more self area }
    {
        match self {
            ScratchFound::Missing => ScratchFound::One(area),
            _ => ScratchFound::Several,
        }
    }
}

// The areas by their kinds: the number of file areas, and the scratch areas.
#[derive(Clone, Copy)]
pub struct Kinds {
    pub files: usize,
    pub scratch: ScratchFound,
}

// What checks 1 to 4 pass: the number of file areas and the scratch area.
#[derive(Clone, Copy)]
pub struct CheckedAreas {
    pub files: usize,
    pub scratch: Descriptor,
}

// Sorts good areas by their kinds, each header looked at once; the file areas are stored in the rows, in descriptor order.
fn sort_areas(image: &[u8], pairs: &[u32], rows: &mut [u32]) -> Kinds
    requires { Room (length image.now) pairs.now rows.old }
    ensures { Sorted image.now (paired pairs.now) result rows.new }
{
    let mut files = 0;
    let mut scratch = ScratchFound::Missing;
    for i in 0..pairs.len() / 2 {
        let area = area_at(pairs, i);
        match area_kind(image, area) {
            AreaKind::File => {
                rows[files] = area.offset;
                rows[SPANS + files] = area.length;
                files += 1;
            }
            AreaKind::Scratch => scratch = scratch.with(area),
            AreaKind::Invalid => {}
        }
    }
    Kinds { files, scratch }
}

// Good areas of an image: their starts and their spans.
#[derive(Clone, Copy)]
struct GoodAreas<'a> {
    image: &'a [u8],
    starts: &'a [u32],
    spans: &'a [u32],
    ghost good: { Good (length image.now) starts.now spans.now },
}

impl<'a> GoodAreas<'a> {
    // Those behind the first `n`.
    fn behind(&self, n: usize) -> GoodAreas<'a>
        requires { n ≤ length self.now.starts.now }
        ensures image { result.image.now ≡ self.now.image.now }
        ensures starts { result.starts.now ≡ drop n self.now.starts.now }
        ensures spans { result.spans.now ≡ drop n self.now.spans.now }
    {
        GoodAreas {
            image: self.image,
            starts: &self.starts[n..],
            spans: &self.spans[n..],
        }
    }

    // Whether none has this id.
    fn no_id(&self, id: u8) -> bool
        ensures { result ≡ all (other_id self.now.image.now id) (described self.now.starts.now self.now.spans.now) }
    {
        let starts = self.starts;
        for start in starts {
            if area_id(self.image, *start) == id {
                return false;
            }
        }
        true
    }

    // Whether two have one id.
    fn shared_id(&self) -> bool
        ensures { result ≡ shared_area_id self.now.image.now (described self.now.starts.now self.now.spans.now) }
    {
        let starts = self.starts;
        for (i, start) in starts.iter().enumerate() {
            if !self.behind(i + 1).no_id(area_id(self.image, *start)) {
                return true;
            }
        }
        false
    }
}

// Whether no length is greater than `most`.
fn none_longer(spans: &[u32], most: u32) -> bool
    ensures { result ≡ all (λ n. leb n most) spans.now }
{
    spans.iter().all(|span| *span <= most)
}

// The one scratch area, or the first of refusals 2 to 4, by the file areas and the scratch areas found.
fn check_kinds(files: &GoodAreas<'_>, scratch: ScratchFound) -> Result<Descriptor, Refusal>
    ensures { KindsAnswer files.now.image.now (described files.now.starts.now files.now.spans.now) scratch result }
{
    if files.shared_id() {
        return Err(Refusal::SameAreaId);
    }
    if files.starts.is_empty() {
        return Err(Refusal::NoFileOrScratch);
    }
    let ScratchFound::One(area) = scratch else {
        return Err(Refusal::NoFileOrScratch);
    };
    if !none_longer(files.spans, area.length) {
        return Err(Refusal::ShortScratch);
    }
    Ok(area)
}

// Checks 1 to 4 of an image and a list of areas. Where none refuses, the file areas stand in the first two columns of `rows`.
pub fn check_areas(image: &[u8], areas: &[u32], rows: &mut [u32]) -> Result<CheckedAreas, Refusal>
    requires { spans_at + most_areas ≤ length rows.old }
    ensures { Checked image.now (area_list areas.now) result rows.new }
{
    let n = count_good_areas(image, areas);
    if n == 0 {
        return Err(Refusal::BadAreas);
    }
    let Kinds { files, scratch } = sort_areas(image, &areas[..n * 2], rows);
    let end = SPANS + files;
    let areas = GoodAreas {
        image,
        starts: &rows[0..files],
        spans: &rows[SPANS..end],
    };
    let scratch = check_kinds(&areas, scratch)?;
    Ok(CheckedAreas { files, scratch })
}
