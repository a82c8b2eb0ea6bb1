// The report of document 01's program: its input cut into areas of 4,096 bytes.
#![tactic(auto)]

ghost use Rattle.std.specs.Prelude.{◌≡◌, ◌≤◌, length};
ghost use Rattle.calls.specs.Answers.{report_seen, tree_seen};
ghost use Rattle.calls.specs.Areas.{most_areas};
ghost use Rattle.area_list.specs.Numbers.{area_list};
ghost use Rattle.calls.specs.Tree.{tree_answer, buffer_with};
ghost use Rattle.calls.specs.Program.{cut_areas, whole_areas, program_report, program_tree};
ghost use Rattle.program_input.specs.Cut.{Cuts};

use area_structs::{Areas, NUMBERS};
use call_entries::{report_of, tree_of};
use calls::{MOST_AREAS, Refusal, Report};

// The length of each area.
const AREA: usize = 4096;

// The list of `count` areas one after the other.
fn describe(count: usize) -> Areas
    requires { count ≤ most_areas }
    ensures { area_list result.numbers ≡ cut_areas count 0 }
{
    let mut numbers = [0; NUMBERS];
    for i in 0..count {
        numbers[i * 2] = (i * AREA) as u32;
        numbers[i * 2 + 1] = AREA as u32;
    }
    Areas { numbers }
}

// Whether an input of `n` bytes is cut into whole areas, two or more and no more than a list may have.
#[tactic(auto, unfolding(calls::specs::Program::whole_areas))]
fn whole_areas(n: usize) -> bool
    ensures { result ≡ whole_areas n }
{
    n % AREA == 0 && (2..=MOST_AREAS).contains(&(n / AREA))
}

// The areas that an input of `n` bytes is cut into.
fn cut(n: usize) -> Result<Areas, Refusal>
    ensures { Cuts n result }
{
    if !whole_areas(n) {
        return Err(Refusal::BadAreas);
    }
    Ok(describe(n / AREA))
}

// What the program reports of its input.
pub fn report_input(input: &[u8]) -> Result<Report, Refusal>
    ensures { report_seen result ≡ program_report input.now }
{
    report_of(input, cut(input.len())?)
}

// The tree of its input, as text.
pub fn tree_input(input: &[u8], text: &mut [u8]) -> Result<u32, Refusal>
    ensures answer { tree_seen result ≡ tree_answer (program_tree input.now) }
    ensures bytes { text.new ≡ buffer_with text.old (program_tree input.now) }
{
    tree_of(input, cut(input.len())?, text)
}
