// Which places of a table are taken, one bit to a place in lent words, and where an id stands among a table's ids.
// The claims are made over the list of all places, so they are the same for any number of words up to `most_words`.
#![tactic(auto)]

ghost use Rattle.std.specs.Prelude.{◌≡◌, ◌+◌, ◌<◌, ◌≤◌, length, set};
ghost use Rattle.table_words.specs.Position.{position_of, in_four, Before};
ghost use Rattle.table_words.specs.Occupancy.{digits, bits, capacity, most_words, first_zero, total};

// The places of one word, a bit each: 1 for a taken place.
pub const BITS: usize = 64;

// The lowest free place, or the number of places where all are taken.
pub fn first_free(words: &[u64]) -> usize
    requires few { length words.now ≤ most_words }
    ensures lowest { result ≡ first_zero (bits words.now) }
    ensures within { result ≤ capacity words.now }
{
    for (i, word) in words.iter().enumerate() {
        let place = first_free_in_word(*word);
        if place < BITS {
            return i * BITS + place;
        }
    }
    words.len() * BITS
}

// How many places are taken.
pub fn taken(words: &[u64]) -> usize
    requires few { length words.now ≤ most_words }
    ensures counted { result ≡ total (bits words.now) }
    ensures within { result ≤ capacity words.now }
{
    words.iter().map(|word| taken_in_word(*word)).sum()
}

// Takes one place; every other stays as it is. The places fix the words (law `bits-only`).
pub fn occupy(words: &mut [u64], place: usize)
    requires { place < capacity words.old }
    ensures { bits words.new ≡ set (bits words.old) place 1 }
{
    let i = place / BITS;
    words[i] |= 1 << (place % BITS);
}

// Whether `id` stands among the four ids from `at` on. No test waits for another, so that compiled code makes them together.
fn in_four(ids: &[u32], at: usize, id: u32) -> bool
    requires { at + 4 ≤ length ids.now }
    ensures { result ≡ in_four ids.now at id }
{
    (ids[at] == id) | (ids[at + 1] == id) | (ids[at + 2] == id) | (ids[at + 3] == id)
}

// How many of the ids, by eights, are before the first eight with `id`.
fn eights_without(ids: &[u32], id: u32) -> usize
    ensures { Before id ids.now result }
{
    let mut i = 0;
    while i + 8 <= ids.len() {
        if in_four(ids, i, id) | in_four(ids, i + 4, id) {
            return i;
        }
        i += 8;
    }
    i
}

// Where `id` first stands among the ids, or their number where it does not.
pub fn position(ids: &[u32], id: u32) -> usize
    ensures first { result ≡ position_of id ids.now }
    ensures within { result ≤ length ids.now }
{
    for i in eights_without(ids, id)..ids.len() {
        if ids[i] == id {
            return i;
        }
    }
    ids.len()
}

// The lowest free place of one word, or 64: its complement has a 1 at every free place.
fn first_free_in_word(word: u64) -> usize
    ensures lowest { result ≡ first_zero (digits 64 word) }
    ensures within { result ≤ 64 }
{
    (!word).trailing_zeros() as usize
}

// How many places of one word are taken.
fn taken_in_word(word: u64) -> usize
    ensures counted { result ≡ total (digits 64 word) }
    ensures within { result ≤ 64 }
{
    word.count_ones() as usize
}
