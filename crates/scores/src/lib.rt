// The scores of a list of handsets: how many pairs of its places are tied, and how many edges leave it.
//
// `tally_list` opens the image and goes over its edges, and `score_list` makes the scores of that. A caller that counts the edges of many lists at once
// uses `pairs_of` for the rest of each tally, and then `scores_of`. The definitions are in specs/Scored, the laws in proofs/Tallying; `tally_same` and
// `scored_same` of proofs/Answers make equations of the answers.
#![tactic(auto)]

ghost use Rattle.std.specs.Prelude.{◌≡◌, ℕ, ◌≤◌, min, leb, length, get_or};
ghost use Rattle.sets.specs.Below.{bit, first};
ghost use Rattle.limits.specs.Limits.{edges_most};
ghost use Rattle.community.specs.Scores.{just_one, every_edge};
ghost use Rattle.scores.specs.Scored.{pairs_of, bad_entry, score, scores_for, tallied_of, scored_of};
ghost use Rattle.scores.specs.Answers.{tally_answer, score_answer};
ghost use Rattle.scores.specs.ForProofs.{tally_at, GoodEntries, joined_sum, leaving_sum};

use image::{Question, Refusal};

// A quotient that is not reduced.
#[derive(Clone, Copy)]
pub struct Ratio {
    pub numerator: u64,
    pub denominator: u64,
}

// None is no score: the divisor is 0.
#[derive(Clone, Copy)]
pub struct Scores {
    pub density: Option<Ratio>,
    pub conductance: Option<Ratio>,
}

// s, t and o of a list: all pairs of places, those whose handsets are adjacent, and the edges with just one end in the list.
#[derive(Clone, Copy)]
pub struct Tally {
    pub pairs: u32,
    pub joined: u32,
    pub leaving: u32,
}

// Question 13: the index of the first bad entry, one that is not below n or stands at index 512 or later.
fn first_bad_entry(n: usize, list: &[u16]) -> Option<usize>
    ensures { result ≡ first (length list.now) (bad_entry n list.now) }
{
    for (i, entry) in list.iter().enumerate() {
        if usize::from(*entry) >= n || i >= 512 {
            return Some(i);
        }
    }
    None
}

// What the table holds for v; 0 past its end.
fn at_or_zero(table: &[u16], v: usize) -> u32
    ensures { result ≡ get_or table.now v 0 }
{
    u32::from(table.get(v).copied().unwrap_or(0))
}

// 1 where just one of two counts is not 0.
fn just_one(a: u32, b: u32) -> u32
    ensures { result ≡ bit (just_one (leb 1 a) (leb 1 b)) }
{
    u32::from((a > 0) != (b > 0))
}

// The tally with s as given, and t and o over the first m edges, by a table of multiplicities.
fn tally_edges(edges: &[u8], m: usize, table: &[u16], all: u32) -> Tally
    requires { (m ≤ edges_most) × ((v : ℕ) → get_or table.now v 0 ≤ 512) }
    ensures { result ≡ record { pairs = all; joined = joined_sum table.now edges.now every_edge m; leaving = leaving_sum table.now edges.now every_edge m } }
{
    let mut joined: u32 = 0;
    let mut leaving: u32 = 0;
    for k in 0..m {
        let ends = near::ends_at(edges, k);
        let a = at_or_zero(table, ends.a);
        let b = at_or_zero(table, ends.b);
        joined += a * b;
        leaving += just_one(a, b);
    }
    Tally {
        pairs: all,
        joined,
        leaving,
    }
}

// s, the count of all pairs of places of a list of that size. Places past the first 512 do not count: question 13 refuses them.
pub fn pairs_of(size: usize) -> u32
    ensures { result ≡ pairs_of (min size 512) }
{
    let n = size.min(512);
    ((n * n - n) / 2) as u32
}

// The tally of a list that question 13 passes, over m edges, in one turn over the list and one over the edges.
fn tally_listed(edges: &[u8], m: usize, list: &[u16]) -> Tally
    requires { (m ≤ edges_most) × GoodEntries list.now }
    ensures { result ≡ tally_at edges.now m every_edge list.now }
{
    let mut table = [0u16; 512];
    sets::count_entries(list, &mut table);
    tally_edges(edges, m, &table, pairs_of(list.len()))
}

// The tally of a list of handsets of an image: the image's refusal, 13 with the first bad entry's index, or s, t and o.
pub fn tally_list(image: &[u8], list: &[u16]) -> Result<Tally, Refusal>
    ensures { tally_answer result ≡ tally_answer (tallied_of image.now list.now) }
{
    let opened = image::open(image);
    let Ok(h) = opened else {
        return Err(refusals::refusal_of(opened));
    };
    if let Some(place) = first_bad_entry(usize::from(h.n), list) {
        return Err(Question::Handset.refused_at(place));
    }
    let m = usize::from(h.m);
    let first = h.edges as usize;
    let past = first + fields::EDGE_BYTES * m;
    Ok(tally_listed(&image[first..past], m, list))
}

// A quotient, or no score where the divisor is 0.
fn score_of(a: u64, b: u64) -> Option<Ratio>
    ensures { result ≡ score a b }
{
    if b == 0 {
        None
    } else {
        Some(Ratio {
            numerator: a,
            denominator: b,
        })
    }
}

// The two scores of a tally, neither reduced. The sums are made in 64 bits, where no tally wraps.
pub fn scores_of(t: Tally) -> Scores
    ensures { result ≡ scores_for t }
{
    let all = u64::from(t.pairs);
    let joined = u64::from(t.joined);
    let leaving = u64::from(t.leaving);
    Scores {
        density: score_of(all.saturating_sub(joined), all),
        conductance: score_of(leaving, 2 * joined + leaving),
    }
}

// The scores of a list of handsets of an image: the image's refusal, 13 with the first bad entry's index, or density and conductance.
pub fn score_list(image: &[u8], list: &[u16]) -> Result<Scores, Refusal>
    ensures { score_answer result ≡ score_answer (scored_of image.now list.now) }
{
    // Not by `?`: the proof of `?` names both ways out after the call, so that an edit of one way out is refused for that name alone.
    match tally_list(image, list) {
        Ok(t) => Ok(scores_of(t)),
        Err(refusal) => Err(refusal),
    }
}
