// The edges inside each group and those that leave it, counted, and the reach of each group, from the groups as rows of bits.
//
// Groups are taken 64 at a time: each handset then has one word, with a bit for each of these groups that it is in. An edge is inside the groups of the `and` of its
// ends' words. The edges that leave a group are what is left of its members' degrees when the edges inside are taken out twice. A table of 1,024 numbers holds the
// edges inside group k at k, and the edges that leave it at 512 + k. Another, of 512 numbers, holds the reach of group k: one more than the largest squared distance
// of a near edge inside it, or 0 where there is none: with a table of options, tried, a report took 2 to 9 % longer (measured), and `count_groups` promises these
// two tables. The definitions are in specs/Tallies.
#![tactic(auto)]

ghost use Rattle.std.specs.Prelude.{ℕ, ◌+◌, ◌-◌, ◌≤◌, ◌<◌, min, max, ◌≡◌, ◌&&◌, cond, eqb, ltb, length, get_or, replicate};
ghost use Rattle.sets.specs.Bits.{bit_at};
ghost use Rattle.limits.specs.Limits.{limit_most, edges_most};
ghost use Rattle.near.specs.Near.{ends_proximity};
ghost use Rattle.community.specs.Network.{contains};
ghost use Rattle.community.specs.Scores.{every_edge};
ghost use Rattle.rows.specs.Rows.{row_members};
ghost use Rattle.tallies.specs.Tallies.{reach_entry, GroupsCounted, GroupsReach};
ghost use Rattle.tallies.specs.ForProofs.{EndAdded, DegreesHold, DegreesFit, degree_sum, bit_for, WordMarked, RowMarked, WordsHold, RowsSummed, Raised, RaisedTo, EdgesCounted, EdgesRaised, Progress, InsideFits, InsideTaken};

use rows::Groups;

// Adds an end to the degree of handset v; a handset that has no place gets none.
fn add_end(degrees: &mut [u32], v: usize)
    requires { get_or degrees.old v 0 < 4294967295 }
    ensures { EndAdded degrees.old v degrees.new }
{
    // Tried with `get_mut`: no proof, as its contract says nothing of the slice afterwards.
    if v < degrees.len() {
        degrees[v] += 1;
    }
}

// Counts the ends of the first m edges: a table of zeros gets the degree of each handset.
fn count_degrees(edges: &[u8], m: usize, degrees: &mut [u32; 512])
    requires few { m ≤ edges_most }
    requires zeros { degrees.old ≡ replicate 512 0 }
    ensures { DegreesHold edges.now every_edge m degrees.new }
{
    for k in 0..m {
        let ends = near::ends_at(edges, k);
        add_end(degrees, ends.a);
        add_end(degrees, ends.b);
    }
}

// Adds the group of bit i to the words of the handsets base + k, for each set bit k of the word, and gives the sum of their degrees.
#[tactic(auto, using(sets::proofs::Ascending::ones_below))]
fn mark_word(word: u64, base: usize, i: usize, degrees: &[u32; 512], words: &mut [u64; 512]) -> u32
    requires in_words { base ≤ 448 }
    requires in_word { i < 64 }
    requires fits { DegreesFit degrees.now }
    ensures marked { WordMarked word base i words.old words.new }
    ensures summed { result ≡ degree_sum (bit_for base word) degrees.now }
{
    let mut sum = 0;
    for k in sets::set_bits(word) {
        let v = base + k;
        sets::mark(words, v * 64 + i);
        sum += degrees[v];
    }
    sum
}

// Adds the group of bit i to the words of the members of a row, which is a set of handsets below 512, and gives the sum of their degrees.
fn mark_row<'a>(row: &'a [u64], i: usize, degrees: &'a [u32; 512], words: &mut [u64; 512]) -> u32
    requires short { length row.now ≤ 8 }
    requires in_word { i < 64 }
    requires fits { DegreesFit degrees.now }
    ensures marked { RowMarked row.now i words.old words.new }
    ensures summed { result ≡ degree_sum (bit_at row.now) degrees.now }
{
    let mut sum = 0;
    for (j, word) in row.iter().enumerate() {
        sum += mark_word(*word, j * 64, i, degrees, words);
    }
    sum
}

// Fills empty words: bit i of handset v's is whether v is in row first + i, for the groups from `first` on, 64 at most. The sum of the degrees in each of these rows
// goes to the row's second place in the table of tallies.
fn mark_rows<'a>(
    groups: Groups<'a>,
    first: usize,
    degrees: &'a [u32; 512],
    words: &mut [u64; 512],
    tallies: &mut [u32; 1024],
)
    requires in_rows { first ≤ 448 }
    requires left { first < groups.count }
    requires fits { DegreesFit degrees.now }
    requires empty { words.old ≡ replicate 512 0 }
    ensures marked { WordsHold (λ (i v : ℕ). ltb i (min (groups.entry.count - first) 64) && contains v (row_members groups.entry.rows.now (first + i))) words.new }
    ensures summed { RowsSummed groups.entry.rows.now first (min (groups.entry.count - first) 64) degrees.now tallies.old tallies.new }
{
    let some = (groups.count - first).min(64);
    for i in 0..some {
        let k = first + i;
        tallies[512 + k] = mark_row(groups.row(k), i, degrees, words);
    }
}

// The word of handset v; 0 for a handset that has none.
fn word_of(words: &[u64; 512], v: usize) -> u64
    ensures { result ≡ get_or words.now v 0 }
{
    words.get(v).copied().unwrap_or(0)
}

// What a table of reaches holds of the edge between u and v: one more than its squared distance, or 0 where they are not near. Only an edge that is inside some
// group is tested; 0 for another.
fn reach_inside(inside: u64, handsets: &[u8], u: usize, v: usize, limit: u64) -> u64
    requires { limit ≤ limit_most }
    ensures { result ≡ cond (eqb inside 0) 0 (reach_entry (ends_proximity handsets.now u v limit)) }
{
    if inside == 0 {
        return 0;
    }
    match near::test_ends(handsets, u, v, limit) {
        Some(d) => d + 1,
        None => 0,
    }
}

// Counts an edge inside group base + k, for each set bit k of the word, and raises its reach to that of the edge where it is less. The other places are left alone.
#[tactic(auto, using(sets::proofs::Ascending::ones_below))]
fn add_inside(
    word: u64,
    base: usize,
    reach: u64,
    tallies: &mut [u32; 1024],
    reaches: &mut [u64; 512],
)
    requires in_tables { base ≤ 448 }
    requires room { (k : ℕ) → k < 64 → get_or tallies.old (base + k) 0 < 4294967295 }
    ensures counted { Raised tallies.old base word tallies.new }
    ensures raised { RaisedTo reaches.old base word reach reaches.new }
{
    for k in sets::set_bits(word) {
        let i = base + k;
        tallies[i] += 1;
        reaches[i] = reaches[i].max(reach);
    }
}

// Counts each of the first m edges for those of the 64 groups from `base` on that it is inside, by the words of its ends, and raises their reaches.
fn count_edges<'a>(
    words: &'a [u64; 512],
    handsets: &'a [u8],
    edges: &'a [u8],
    m: usize,
    limit: u64,
    base: usize,
    tallies: &mut [u32; 1024],
    reaches: &mut [u64; 512],
)
    requires in_tables { base ≤ 448 }
    requires in_limits { limit ≤ limit_most }
    requires few { m ≤ edges_most }
    requires zeros { (k : ℕ) → k < 64 → get_or tallies.old (base + k) 0 ≡ 0 }
    ensures counted { EdgesCounted words.now edges.now m base tallies.old tallies.new }
    ensures raised { EdgesRaised words.now handsets.now edges.now m limit base reaches.old reaches.new }
{
    for k in 0..m {
        let ends = near::ends_at(edges, k);
        let inside = word_of(words, ends.a) & word_of(words, ends.b);
        let reach = reach_inside(inside, handsets, ends.a, ends.b, limit);
        add_inside(inside, base, reach, tallies, reaches);
    }
}

// Counts the first m edges for the 64 groups from `first` on, where those below `first` are counted already. The edges that leave a group are counted with two for each
// edge inside it.
fn count_chunk<'a>(
    handsets: &'a [u8],
    edges: &'a [u8],
    m: usize,
    limit: u64,
    groups: Groups<'a>,
    first: usize,
    degrees: &'a [u32; 512],
    tallies: &mut [u32; 1024],
    reaches: &mut [u64; 512],
)
    requires in_tables { first ≤ 448 }
    requires left { first < groups.count }
    requires in_limits { limit ≤ limit_most }
    requires few { m ≤ edges_most }
    requires degrees_hold { DegreesHold edges.now every_edge m degrees.now }
    requires so_far { Progress handsets.now edges.now m limit groups.rows.now groups.count first tallies.old reaches.old }
    ensures { Progress handsets.now edges.now m limit groups.entry.rows.now groups.entry.count (first + 64) tallies.new reaches.new }
{
    let mut words = [0u64; 512];
    mark_rows(groups, first, degrees, &mut words, tallies);
    count_edges(&words, handsets, edges, m, limit, first, tallies, reaches);
}

// Takes twice the edges inside out of the second place of each of the first groups.
fn take_inside(groups: usize, tallies: &mut [u32; 1024])
    requires few { groups ≤ 512 }
    requires fits { InsideFits groups tallies.old }
    ensures { InsideTaken groups tallies.old tallies.new }
{
    for k in 0..groups {
        tallies[512 + k] -= tallies[k] * 2;
    }
}

// Counts the edges inside and the edges leaving each of the groups, over the edge records, and finds the reach of each by the
// handset records and the square of the near distance. The tables that are lent get these, and 0 for the other groups. It looks at no more handsets, edges and
// groups than a site can have, and takes no larger limit.
pub fn count_groups<'a>(
    handsets: &'a [u8],
    edges: &'a [u8],
    limit: u64,
    groups: Groups<'a>,
    tallies: &mut [u32; 1024],
    reaches: &mut [u64; 512],
)
    ensures counted { GroupsCounted edges.now groups.entry.rows.now groups.entry.count tallies.new }
    ensures raised { GroupsReach handsets.now edges.now limit groups.entry.rows.now groups.entry.count reaches.new }
{
    let m = (edges.len() / fields::EDGE_BYTES).min(limits::EDGES_MOST);
    let all = groups.count.min(512);
    let listed = Groups {
        rows: groups.rows,
        count: all,
    };
    let most = limit.min(limits::LIMIT_MOST);
    *tallies = [0u32; 1024];
    *reaches = [0u64; 512];
    let mut degrees = [0u32; 512];
    count_degrees(edges, m, &mut degrees);
    for first in (0..all).step_by(64) {
        count_chunk(
            handsets, edges, m, most, listed, first, &degrees, tallies, reaches,
        );
    }
    take_inside(all, tallies);
}
