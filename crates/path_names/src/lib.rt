// Paths: whether a path is good, and its names one by one, the base's first.
#![tactic(auto)]

ghost use Rattle.std.specs.Prelude.{◌≡◌, true, ◌≤◌, length, drop};
ghost use Rattle.volume.specs.Path.{good_segment, good_segments, segments, is_absolute, good_absolute, good_relative, good_path};
ghost use Rattle.path_names.specs.Names.{no_nul, to_slash, names_from, any_names, one_name, Ended, Reached, Started, Named, Stepped};

// The longest name, and the longest path or base.
const LONGEST_NAME: usize = 255;

const LONGEST_PATH: usize = 1024;

// How far a path is walked: the next name starts at a place in the base, or in the path.
#[derive(Clone, Copy)]
pub enum Walk {
    InBase(usize),
    InPath(usize),
}

// How many bytes stand before the first slash: all, where there is none.
fn to_slash(s: &[u8]) -> usize
    ensures before { result ≡ to_slash s.now }
    ensures within { result ≤ length s.now }
{
    s.iter().position(|b| *b == b'/').unwrap_or(s.len())
}

// Where the segment that starts at `from` ends: at the next slash, or at the end.
fn segment_end(s: &[u8], from: usize) -> usize
    requires { from ≤ length s.now }
    ensures { Ended s.now from result }
{
    from + to_slash(&s[from..])
}

// Whether no byte is NUL.
fn no_nul(s: &[u8]) -> bool
    ensures { result ≡ no_nul s.now }
{
    s.iter().all(|b| *b != 0)
}

// Whether a segment is good: 1 to 255 bytes, none of them NUL.
#[tactic(auto, unfolding(volume::specs::Path::good_segment))]
fn good_segment(s: &[u8]) -> bool
    ensures { result ≡ good_segment s.now }
{
    (1..=LONGEST_NAME).contains(&s.len()) && no_nul(s)
}

// Whether all segments from `from` on are good.
fn good_segments(s: &[u8], from: usize) -> bool
    requires { from ≤ length s.now }
    ensures { result ≡ good_segments (segments (drop from s.now)) }
{
    let mut at = from;
    loop {
        let end = segment_end(s, at);
        if !good_segment(&s[at..end]) {
            return false;
        }
        let next = end + 1;
        if s.len() < next {
            return true;
        }
        at = next;
    }
}

// Whether a path begins with a slash.
fn is_absolute(s: &[u8]) -> bool
    ensures { result ≡ is_absolute s.now }
{
    s.starts_with(b"/")
}

// Whether a path that must be absolute is good.
fn good_absolute(s: &[u8]) -> bool
    ensures { result ≡ good_absolute s.now }
{
    if !is_absolute(s) {
        return false;
    }
    // the root has no names
    s.len() <= LONGEST_PATH && (s.len() <= 1 || good_segments(s, 1))
}

// Whether a path below a base is good.
fn good_relative(s: &[u8]) -> bool
    ensures { result ≡ good_relative s.now }
{
    s.len() <= LONGEST_PATH && good_segments(s, 0)
}

// Whether `path` is good; one without a leading slash is taken below `base`.
pub fn good_path(base: &[u8], path: &[u8]) -> bool
    ensures { result ≡ good_path base.now path.now }
{
    if is_absolute(path) {
        good_absolute(path)
    } else {
        good_absolute(base) && good_relative(path)
    }
}

// The first name of a good path.
pub fn start(base: &[u8], path: &[u8]) -> Walk
    requires { good_path base.now path.now ≡ true }
    ensures { Started base.now path.now result }
{
    if is_absolute(path) {
        Walk::InPath(1)
    } else if base.len() <= 1 {
        Walk::InPath(0)
    } else {
        Walk::InBase(1)
    }
}

// Whether a name is left.
pub fn has_name(base: &[u8], path: &[u8], w: Walk) -> bool
    requires { Reached base.now path.now w }
    ensures { result ≡ any_names (names_from base.now path.now w) }
{
    match w {
        Walk::InBase(_) => true,
        Walk::InPath(at) => at < path.len(),
    }
}

// Whether exactly one name is left.
pub fn is_last(base: &[u8], path: &[u8], w: Walk) -> bool
    requires { Reached base.now path.now w }
    ensures { result ≡ one_name (names_from base.now path.now w) }
{
    match w {
        Walk::InBase(_) => false,
        Walk::InPath(at) => at < path.len() && segment_end(path, at) == path.len(),
    }
}

// The next name, a part of the base or of the path, whichever it comes from.
pub fn name_at<'a>(base: &'a [u8], path: &'a [u8], w: Walk) -> &'a [u8]
    requires reached { Reached base.now path.now w }
    requires w_value { any_names (names_from base.now path.now w) ≡ true }
    ensures { Named base.now path.now w result.now }
{
    match w {
        Walk::InBase(at) => &base[at..segment_end(base, at)],
        Walk::InPath(at) => &path[at..segment_end(path, at)],
    }
}

// Behind the next name; the path comes after the base.
pub fn after(base: &[u8], path: &[u8], w: Walk) -> Walk
    requires reached { Reached base.now path.now w }
    requires w_value { any_names (names_from base.now path.now w) ≡ true }
    ensures { Stepped base.now path.now w result }
{
    match w {
        Walk::InBase(at) => {
            let next = segment_end(base, at) + 1;
            if next < base.len() {
                Walk::InBase(next)
            } else {
                Walk::InPath(0)
            }
        }
        Walk::InPath(at) => Walk::InPath(segment_end(path, at) + 1),
    }
}
