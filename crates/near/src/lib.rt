// The near test of two handsets, the only one: near with the squared distance, or not near; by their records, and by their numbers. And the one reader of an edge
// for everything above `graph`. All three are total.
//
// The definitions are in specs/Near. Callers that have an image's records cite proofs/Near.
#![tactic(auto)]

ghost use Rattle.std.specs.Prelude.{◌≡◌, ◌<◌, ◌≤◌, MatchOption};
ghost use Rattle.image.specs.Image.{end_a, end_b, handset_record};
ghost use Rattle.near.specs.Near.{proximity_of, proximity_answer, handsets_in, ends_proximity};

use fields::Ends;

// The near test of two handsets, by their records: near with their squared distance where that is at most the limit, else not near. What is left of the limit
// wraps only where they are not near: a `checked_sub` with `?` would leave early, and the processor would have to guess where.
pub fn proximity_of(a: &[u8], b: &[u8], limit: u64) -> Option<u64>
    ensures { proximity_answer result ≡ proximity_answer (proximity_of a.now b.now limit) }
{
    let mut fits = true;
    let mut room = limit;
    for i in 0..fields::COORDINATES {
        let square = fields::squared_gap_at(a, b, fields::COORDINATE_BYTES * i);
        fits &= square <= room;
        room = room.wrapping_sub(square);
    }
    if fits { Some(limit - room) } else { None }
}

// The ends of edge k, by the edge records; 0 for one that is not there.
pub fn ends_at(edges: &[u8], k: usize) -> Ends
    ensures { result ≡ record { a = end_a edges.now k; b = end_b edges.now k } }
{
    let at = k.saturating_mul(fields::EDGE_BYTES);
    fields::read_ends(edges.get(at..).unwrap_or(&[]))
}

// The record of handset v, from the handset records.
fn record_at(handsets: &[u8], v: usize) -> Option<&[u8]>
    ensures { MatchOption result (handsets_in handsets.now ≤ v) (λ x. (v < handsets_in handsets.now) × (x.now ≡ handset_record handsets.now v)) }
{
    if v < handsets.len() / fields::HANDSET_BYTES {
        let at = fields::HANDSET_BYTES * v;
        Some(&handsets[at..at + fields::HANDSET_BYTES])
    } else {
        None
    }
}

// The near test of two handsets by their numbers, from the handset records: not near where a record is missing.
pub fn test_ends(handsets: &[u8], u: usize, v: usize, limit: u64) -> Option<u64>
    ensures { result ≡ ends_proximity handsets.now u v limit }
{
    let first = record_at(handsets, u)?;
    let second = record_at(handsets, v)?;
    proximity_of(first, second, limit)
}
