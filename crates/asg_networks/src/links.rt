//! Arcs that are kept, and those of them that repeat others.

ghost use Rattle.std.specs.Prelude.{◌≡◌, ◌+◌, ◌*◌, ◌^◌, ◌<◌, ◌≤◌, ◌⊎◌, [], ◌++◌, List, IfOk, IfErr, IsTrue, length, slice_get};
ghost use Rattle.std.specs.List.{range_with_len};
ghost use Rattle.std.specs.List.Sorted.{IsNonDecreasingBy, IsPermutation};
ghost use Rattle.std.specs.Option.{option_map};
ghost use Rattle.asg_tokens.specs.Faults.{Fault, ArcTwice};
ghost use Rattle.asg_networks.specs.LinkOrder.{AreByEnds, IsFirstTwice, IsFit, are_unlike_at, is_unlike};
ghost use Rattle.asg_networks.specs.LinkOrder.{link_of, order_number};
ghost use Rattle.asg_networks.specs.Networks.{twice_faults};
ghost use Rattle.asg_tokens.specs.Slots.{IsEarliest};

use asg_tokens::TextRefusal;
use std::alloc::{AllocError, Global};

// As many as 32 bits tell apart.
const WORD: u128 = 0x1_0000_0000;

/// An arc that is kept, with the number of its line.
#[derive(Clone, Copy, PartialEq, Eq)]
pub(crate) struct Link {
    pub(crate) source: u32,
    pub(crate) target: u32,
    pub(crate) cost: i64,
    pub(crate) line: u64,
}

/// The earliest fault, where these arcs come before a fault: that of the first of them which
/// repeats another at another cost, if one does. It takes n log n steps for n arcs.
pub(crate) fn earliest(alloc: Global, links: &[Link], refusal: TextRefusal) -> TextRefusal
    ensures { (faults : List Fault) → IsEarliest faults refusal
        → IsEarliest (twice_faults [] links.now ++ faults) result }
{
    match first_twice(alloc, links) {
        Ok(Some(line)) => TextRefusal::ArcTwice(line),
        Ok(None) => refusal,
        Err(no_memory) => no_memory,
    }
}

// The line of the first arc that repeats another at another cost.
fn first_twice(alloc: Global, links: &[Link]) -> Result<Option<u64>, TextRefusal>
    ensures first { IfOk result (λ line.
        slice_get (twice_faults [] links.now) 0 ≡ option_map ArcTwice line) }
    ensures refused { IfErr result (λ refusal. refusal ≡ TextRefusal.NoMemory) }
{
    let places = places_by_ends(alloc, links)?;
    let first = first_unlike(links, places.as_slice());
    match links.get(first) {
        Some(link) => Ok(Some(link.line)),
        None => Ok(None),
    }
}

// The number by which arcs are sorted: by their ends, and those with the same ends by their places.
fn order_number(links: &[Link], place: u32) -> u128
    ensures { result ≡ order_number links.now place }
{
    match links.get(place as usize) {
        Some(link) => number_of(link.source, link.target, place),
        None => u128::from(place),
    }
}

// The number of an arc with these ends at a place.
fn number_of(source: u32, target: u32, place: u32) -> u128
    ensures { result ≡ (source * 2 ^ 32 + target) * 2 ^ 32 + place }
{
    (u128::from(source) * WORD + u128::from(target)) * WORD + u128::from(place)
}

// The places of all arcs, sorted by the ends of the arcs and then by themselves. They are numbers of
// 32 bits, so that they take little beside the arcs. The error is want of memory, or that there are
// 2^32 arcs.
fn places_by_ends(alloc: Global, links: &[Link]) -> Result<Vec<u32>, TextRefusal>
    ensures sorted { IfOk result (λ places. AreByEnds links.now places.items) }
    ensures refused { IfErr result (λ refusal. refusal ≡ TextRefusal.NoMemory) }
{
    let Ok(count) = u32::try_from(links.len()) else {
        return Err(TextRefusal::NoMemory);
    };
    let mut places = numbers_to(alloc, count)?;
    sort_by_ends(links, &mut places);
    Ok(places)
}

// The numbers from 0 on, so many.
fn numbers_to(alloc: Global, count: u32) -> Result<Vec<u32>, AllocError>
    ensures { IfOk result (λ numbers. numbers.items ≡ range_with_len 0 count) }
{
    let mut numbers = Vec::with_capacity(alloc, count as usize)?;
    for number in 0..count {
        numbers.push(number)?;
    }
    Ok(numbers)
}

// Sorts places by the ends of the arcs and then by themselves.
fn sort_by_ends(links: &[Link], places: &mut Vec<u32>)
    ensures permutation { IsPermutation places.old.items places.new.items }
    ensures ascending { IsNonDecreasingBy (order_number links.now) places.new.items }
{
    places.sort_unstable_by_key(|place| order_number(links, *place));
}

// The place of the first arc that repeats another at another cost, or how many arcs there are where
// none does. An arc that does has an arc before it in the sorted places, with the same ends, and the
// first arc of these ends whose cost isn't that of the one before it is the first that does.
fn first_unlike(links: &[Link], places: &[u32]) -> usize
    requires { AreByEnds links.now places.now }
    ensures { IsFirstTwice links.now result }
{
    let mut first = links.len();
    for at in 1..places.len() {
        first = earlier_of(links, first, places[at], places[at - 1]);
    }
    first
}

// The place where it is less and its arc has the ends of that at the other place, and another cost;
// else the number.
fn earlier_of(links: &[Link], first: usize, place: u32, other: u32) -> usize
    requires place { place < length links.now }
    requires other { other < length links.now }
    ensures upto { result ≤ first }
    ensures below { IsTrue (are_unlike_at links.now other place) → result ≤ place }
    ensures either { (result ≡ first) ⊎ ((result ≡ place)
        × IsTrue (are_unlike_at links.now other place)) }
    ensures place_fits { IsFit (link_of links.now place) }
    ensures other_fits { IsFit (link_of links.now other) }
{
    let differs = is_unlike(links[place as usize], links[other as usize]);
    if differs && (place as usize) < first {
        place as usize
    } else {
        first
    }
}

// Whether an arc has the ends of another, and another cost.
fn is_unlike(link: Link, other: Link) -> bool
    ensures is { result ≡ is_unlike link other }
    ensures link_fits { IsFit link }
    ensures other_fits { IsFit other }
{
    link.source == other.source && link.target == other.target && link.cost != other.cost
}
