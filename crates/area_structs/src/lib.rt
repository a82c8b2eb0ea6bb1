// A list of descriptors lent as a slice of structs, copied into an array of numbers, offset and length in turn, which every call takes.
#![tactic(auto)]

ghost use Rattle.std.specs.Prelude.{◌≡◌, take};
ghost use Rattle.calls.specs.Areas.{listed};
ghost use Rattle.area_list.specs.Numbers.{area_list};
ghost use Rattle.area_structs.specs.Entries.{most_entries, areas_of};

use calls::{Descriptor, MOST_AREAS};

// One entry more than a good list has: the last tells that there are too many.
pub const ENTRIES: usize = MOST_AREAS + 1;

// The numbers of so many entries, two to each.
pub const NUMBERS: usize = ENTRIES * 2;

// The entries of a list before its end, as numbers; zeros follow, which end it.
#[derive(Clone, Copy)]
pub struct Areas {
    pub numbers: [u32; NUMBERS],
}

// The areas of a lent list: its entries are copied, until one ends it or there is no room.
pub fn areas_of(list: &[Descriptor]) -> Areas
    ensures { (result ≡ areas_of list.now) × (area_list result.numbers ≡ take most_entries (listed list.now)) }
{
    let mut numbers = [0; NUMBERS];
    for (i, d) in list.iter().enumerate() {
        if d.length == 0 || i == ENTRIES {
            break;
        }
        numbers[i * 2] = d.offset;
        numbers[i * 2 + 1] = d.length;
    }
    Areas { numbers }
}

// The same of an array by value, which lies in a local that is lent.
pub fn areas_in(list: [Descriptor; ENTRIES]) -> Areas
    ensures { (result ≡ areas_of list) × (area_list result.numbers ≡ take most_entries (listed list)) }
{
    areas_of(&list)
}
