// The source area of a collection: of the file areas as long as scratch, the first that no other of them precedes.
#![tactic(auto)]

ghost use Rattle.std.specs.Prelude.{◌≡◌, ◌+◌, ◌<◌, ◌≤◌, length, unwrap_or, IfSome};
ghost use Rattle.format.specs.AreaHeader.{area_header_size};
ghost use Rattle.volume.specs.Lists.{keep, first};
ghost use Rattle.calls.specs.Collect.{precedes, source_of};
ghost use Rattle.area_list.specs.Described.{area_of, described};
ghost use Rattle.area_pass.specs.Listing.{AreasFit};
ghost use Rattle.collect_source.specs.Source.{ahead, none_ahead, leads, area_at};

use area_read::area_count;
use calls::Descriptor;
use table_words::position;

// Whether an area of count `a` is collected before one of count `b`.
#[tactic(auto, unfolding(calls::specs::Collect::precedes))]
fn precedes(a: u8, b: u8) -> bool
    ensures { result ≡ precedes a b }
{
    let n = (u32::from(b) + 256 - u32::from(a)) % 256;
    1 <= n && n <= 127
}

// Whether an area is of the wanted length and its count precedes `count`.
fn is_ahead(image: &[u8], offset: u32, span: u32, wanted: u32, count: u8) -> bool
    requires { (offset + area_header_size ≤ length image.now) × (area_header_size ≤ span) }
    ensures { result ≡ ahead image.now wanted count (area_of offset span) }
{
    span == wanted && precedes(area_count(image, offset), count)
}

// Whether no area of the wanted length has a count that precedes `count`.
fn none_ahead(image: &[u8], starts: &[u32], spans: &[u32], wanted: u32, count: u8) -> bool
    requires { AreasFit image.now starts.now spans.now }
    ensures { result ≡ none_ahead image.now wanted count (described starts.now spans.now) }
{
    for i in 0..starts.len() {
        if is_ahead(image, starts[i], spans[i], wanted, count) {
            return false;
        }
    }
    true
}

// Whether an area is of the wanted length, and no other such area precedes it.
fn leads(image: &[u8], starts: &[u32], spans: &[u32], wanted: u32, offset: u32, span: u32) -> bool
    requires areas_fit { AreasFit image.now starts.now spans.now }
    requires area_header_size_in_bounds { (offset + area_header_size ≤ length image.now) × (area_header_size ≤ span) }
    ensures { result ≡ leads image.now wanted (described starts.now spans.now) (area_of offset span) }
{
    span == wanted && none_ahead(image, starts, spans, wanted, area_count(image, offset))
}

// The place in the list of the first area that leads.
fn first_leading(image: &[u8], starts: &[u32], spans: &[u32], wanted: u32) -> Option<usize>
    requires { AreasFit image.now starts.now spans.now }
    ensures is { area_at starts.now spans.now (unwrap_or result (length starts.now)) ≡ first (keep (leads image.now wanted (described starts.now spans.now)) (described starts.now spans.now)) }
    ensures within { IfSome result (λ i. i < length starts.now) }
{
    for i in 0..starts.len() {
        if leads(image, starts, spans, wanted, starts[i], spans[i]) {
            return Some(i);
        }
    }
    None
}

// The place in the list of the source area; there is none where no area is as long as scratch.
pub fn choose_source(
    image: &[u8],
    starts: &[u32],
    spans: &[u32],
    scratch: Descriptor,
) -> Option<usize>
    requires { AreasFit image.now starts.now spans.now }
    ensures is { area_at starts.now spans.now (unwrap_or result (length starts.now)) ≡ source_of image.now (described starts.now spans.now) scratch }
    ensures within { IfSome result (λ i. i < length starts.now) }
{
    let wanted = scratch.length;
    if let Some(leading) = first_leading(image, starts, spans, wanted) {
        return Some(leading);
    }
    let longest = position(spans, wanted);
    if longest < spans.len() {
        return Some(longest);
    }
    None
}
