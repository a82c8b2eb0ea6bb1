// Lists of areas as numbers, of every length up to 20 entries and with the mark that ends them at each place: how many areas each has, or 0
// where it is not good.
#![tactic(auto)]

use area_list::count_good_areas;

// The entries of the longest list, and its numbers, two to each.
const ENTRIES: usize = 20;

const NUMBERS: usize = ENTRIES * 2;

// The length of each area.
const AREA: usize = 128;

// Prints how many areas a list has that is cut or marked behind so many entries.
fn show(word: &[u8], behind: usize, areas: usize) {
    io::write_all(1, word);
    io::print_decimal(1, behind as u64);
    io::write_all(1, b": ");
    io::print_decimal(1, areas as u64);
    io::write_all(1, b"\n");
}

// The numbers of areas one behind the other.
fn numbers() -> [u32; NUMBERS] {
    let mut numbers = [0; NUMBERS];
    for i in 0..ENTRIES {
        numbers[i * 2] = (i * AREA) as u32;
        numbers[i * 2 + 1] = AREA as u32;
    }
    numbers
}

// Lists cut behind each number of entries.
fn show_lengths(image: &[u8]) {
    let list = numbers();
    for i in 0..=ENTRIES {
        show(b"entries ", i, count_good_areas(image, &list[..i * 2]));
    }
}

// Lists with a length of 0 at each place.
fn show_marks(image: &[u8]) {
    for i in 0..ENTRIES {
        let mut list = numbers();
        list[i * 2 + 1] = 0;
        show(b"mark behind ", i, count_good_areas(image, &list));
    }
}

// The longest list fills the image.
fn main() {
    let image = [0u8; ENTRIES * AREA];
    show_lengths(&image);
    show_marks(&image);
}
