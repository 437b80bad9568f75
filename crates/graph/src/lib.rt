// The network of a site: who is whose neighbour, who is similar to whom, who is a core, and so which are its communities. A table has a row of eight words for
// each handset, one bit a handset, and the size of each row stands beside it. The code loops over the edges, never over pairs of handsets.
//
// `open_neighbours` opens an image and leaves its near edges, its neighbour table and the sizes of the neighbourhoods. The calls `find_rows`, `find_site` and
// `find_part` go on to the communities, as rows of bits, of the whole site or of the handsets within a set.
//
// `Records` has the edges of an accepted image, and the tests of one. The reader leaves every edge in the table. First the edges whose ends are not near are
// dropped, and then those whose ends are not similar: each time a word of up to 64 edges is made of them, one bit an edge, without a branch on the test, and
// then the edges of the word are dropped.
//
// The definitions are in specs/Graph; callers cite proofs/Laws.
#![tactic(auto)]

ghost use Rattle.std.specs.Prelude.{◌≡◌, ◌&&◌, not, ℕ, ◌+◌, ◌*◌, ◌/◌, ◌≤◌, ◌<◌, T, leb, ltb, eqb, length, get_or};
ghost use Rattle.sets.specs.Below.{sum};
ghost use Rattle.sets.specs.Bits.{bit_of, bit_at, without_bit, ones_of};
ghost use Rattle.sets.specs.Rows.{SetOf, Counted};
ghost use Rattle.fields.specs.Fields.{handset_bytes, edge_bytes};
ghost use Rattle.limits.specs.Limits.{edges_most};
ghost use Rattle.image.specs.Image.{header_of, handset_records, edge_records, end_a, end_b};
ghost use Rattle.image.specs.Questions.{Accepted};
ghost use Rattle.image.specs.Rows.{zeros};
ghost use Rattle.community.specs.Site.{network};
ghost use Rattle.graph.specs.Graph.{edge_words, EdgeSet, RowsFound, SiteFound, PartFound};
ghost use Rattle.graph.specs.ForProofs.{HasEnds, in_word, WordOf, passes_near, Dropped, enough_at, NeighboursRead};
ghost use Rattle.graph.specs.ForProofs.{both_within, SelfTaken, Drawn, DrawnAfter, GroupsFound, HeldWithin};

use fields::Ends;
use image::{Header, Refusal};

// How many words a set of edges has, one bit an edge.
pub const EDGE_WORDS: usize = limits::EDGES_MOST / 64;

// A set of edges.
type Edges = [u64; EDGE_WORDS];

// The sizes of the rows of a table, which go with it everywhere. A struct of the two `&mut`, tried, is no plainer: each function then says of both that they
// stay the caller's, and that the sizes are the rows' is no fact of the type, as it fails between the two writes of `take_out`.
type Sizes = [u32; 512];

// The reader's answer, how many communities were found, and by how many tests for similarity; both counts are 0 after a no. The answer stands in it whole, and
// not a Result of these numbers: each call takes the header out of the reader's answer by let .. else, and ends with its refusal.
#[derive(Clone, Copy)]
pub struct SiteGroups {
    pub opened: Result<Header, Refusal>,
    pub groups: usize,
    pub tests: u32,
}

// Takes v out of row u, if it is in it. By sets::has and sets::unmark, tried, it is slower: the plan of a full site took 3 % longer (measured).
fn take_out(table: &mut sets::Table, sizes: &mut Sizes, u: usize, v: usize)
    requires { (u < 512) × (v < 512) × (Counted table.old sizes.old) }
    ensures taken { table.new ≡ without_bit table.old (u * 512 + v) }
    ensures counted { Counted table.new sizes.new }
{
    let i = (u * 512 + v) / 64;
    let k = (u * 512 + v) % 64;
    let word = table[i];
    table[i] = word ^ (word & (1 << k));
    sizes[u] -= ((word >> k) % 2) as u32;
}

// The records of a site's handsets and edges, and the numbers of its header.
#[derive(Clone, Copy)]
struct Records<'a> {
    handsets: &'a [u8],
    edges: &'a [u8],
    h: Header,
    ghost few_handsets: { length handsets.now ≤ handset_bytes * 512 },
    ghost few_edges: { h.m ≤ edges_most },
    ghost whole_edges: { (k : ℕ) → k < h.m → HasEnds edges.now (length handsets.now / handset_bytes) k },
}

impl<'a> Records<'a> {
    // Those of an accepted image.
    fn of_image(image: &'a [u8], h: Header) -> Records<'a>
        requires { (Accepted image.now) × (h ≡ header_of image.now) }
        ensures handsets { result.handsets.now ≡ handset_records image.now }
        ensures edges { result.edges.now ≡ edge_records image.now }
        ensures header { result.h ≡ h }
    {
        let a = h.handsets as usize;
        let b = h.edges as usize;
        Records {
            handsets: &image[a..a + fields::HANDSET_BYTES * (h.n as usize)],
            edges: &image[b..b + fields::EDGE_BYTES * (h.m as usize)],
            h,
        }
    }

    // How many words of a set of edges hold its edges. A loop over all 64 words, tried, is slower: the plan of the smallest site took a quarter longer (measured).
    fn words(&self) -> usize
        ensures all { self.now.h.m ≤ 64 * result }
        ensures needed { 64 * result < self.now.h.m + 64 }
    {
        (self.h.m as usize).div_ceil(64)
    }

    // The two ends of edge k. Tried with near::ends_at, which looks whether its record is there, and slower: the plan took 4 % longer (measured).
    fn ends_at(&self, k: usize) -> Ends
        requires { k < self.now.h.m }
        ensures ends { (result.a ≡ end_a self.now.edges.now k) × (result.b ≡ end_b self.now.edges.now k) }
        ensures below { (result.a < 512) × (result.b < 512) }
    {
        let at = fields::EDGE_BYTES * k;
        fields::read_ends(&self.edges[at..at + fields::EDGE_BYTES])
    }

    // Whether the ends of edge k are near.
    fn is_near(&self, k: usize) -> bool
        requires { k < self.now.h.m }
        ensures { result ≡ passes_near self.now.handsets.now self.now.edges.now self.now.h.limit k }
    {
        let e = self.ends_at(k);
        let a = fields::HANDSET_BYTES * e.a;
        let b = fields::HANDSET_BYTES * e.b;
        let first = &self.handsets[a..a + fields::HANDSET_BYTES];
        let second = &self.handsets[b..b + fields::HANDSET_BYTES];
        match near::proximity_of(first, second, self.h.limit) {
            Some(_) => true,
            None => false,
        }
    }

    // The edges from `base` on whose ends are near, as a word: of `count` edges, at most 64. It is made from its highest bit down, without a branch on the
    // test.
    fn near_word(&self, base: usize, count: usize) -> u64
        requires { (count ≤ 64) × (base + count ≤ self.now.h.m) }
        ensures { WordOf result
            (λ k. ltb k count && passes_near self.now.handsets.now self.now.edges.now self.now.h.limit (base + k)) }
    {
        let mut word = 0;
        for k in (0..count).rev() {
            word = (word << 1) | u64::from(self.is_near(base + k));
        }
        word
    }

    // Drops the edges base + k, for each set bit k of the word: takes the ends of each out of each other's rows.
    fn drop_edges(&self, word: u64, base: usize, table: &mut sets::Table, sizes: &mut Sizes)
        requires { (Counted table.old sizes.old) × ((k : ℕ) → T (in_word word base k) → k < self.now.h.m) }
        ensures dropped { Dropped self.now.edges.now (in_word word base) table.old table.new }
        ensures counted { Counted table.new sizes.new }
    {
        for k in sets::set_bits(word) {
            let e = self.ends_at(base + k);
            take_out(table, sizes, e.a, e.b);
            take_out(table, sizes, e.b, e.a);
        }
    }

    // Drops the edges whose ends are not near. The empty set `near` gets the others.
    fn drop_far(&self, near: &mut Edges, table: &mut sets::Table, sizes: &mut Sizes)
        requires { (near.old ≡ zeros edge_words) × (Counted table.old sizes.old) }
        ensures kept { EdgeSet near.new
            (λ k. ltb k self.now.h.m && passes_near self.now.handsets.now self.now.edges.now self.now.h.limit k) }
        ensures dropped { Dropped self.now.edges.now
            (λ k. ltb k self.now.h.m && not (passes_near self.now.handsets.now self.now.edges.now self.now.h.limit k)) table.old table.new }
        ensures counted { Counted table.new sizes.new }
    {
        let m = self.h.m as usize;
        for j in 0..self.words() {
            let count = (m - 64 * j).min(64);
            let word = self.near_word(64 * j, count);
            let all = u64::MAX >> (64 - count);
            self.drop_edges(word ^ all, 64 * j, table, sizes);
            near[j] = word;
        }
    }

    // Drops the edges of a set.
    fn drop_set(&self, set: &Edges, table: &mut sets::Table, sizes: &mut Sizes)
        requires { (Counted table.old sizes.old) × ((k : ℕ) → bit_at set.now k ≡ 1 → k < self.now.h.m) }
        ensures dropped { Dropped self.now.edges.now (λ k. eqb (bit_at set.now k) 1) table.old table.new }
        ensures counted { Counted table.new sizes.new }
    {
        for j in 0..self.words() {
            self.drop_edges(set[j], 64 * j, table, sizes);
        }
    }

    // The test of the ends of edge k for similarity: whether their rows have enough in common for their sizes.
    fn is_similar(&self, table: &sets::Table, sizes: &Sizes, k: usize) -> bool
        requires { (k < self.now.h.m) × (Counted table.now sizes.now) }
        ensures { result ≡ enough_at table.now sizes.now self.now.h.p self.now.h.q self.now.edges.now k }
    {
        let e = self.ends_at(k);
        let a = e.a * 8;
        let b = e.b * 8;
        let common = similarity::common(&table[a..a + 8], &table[b..b + 8]);
        similarity::meets_epsilon(
            common as u16,
            sizes[e.a] as u16,
            sizes[e.b] as u16,
            self.h.p,
            self.h.q,
        )
    }

    // Of the edges base + k, for each set bit k of the word, those whose ends are not similar, as a word. Each is tested once, which `tests` counts.
    fn dissimilar_word(
        &self,
        word: u64,
        base: usize,
        table: &sets::Table,
        sizes: &Sizes,
        tests: &mut u32,
    ) -> u64
        requires { (Counted table.now sizes.now) × ((k : ℕ) → T (in_word word base k) → k < self.now.h.m) × (tests.old ≤ edges_most) }
        ensures sifted { WordOf result
            (λ k. eqb (bit_of word k) 1
            && not (enough_at table.now sizes.now self.now.h.p self.now.h.q self.now.edges.now (base + k))) }
        ensures counted { tests.new ≡ tests.old + length (ones_of word) }
    {
        let mut dissimilar = 0;
        for k in sets::set_bits(word) {
            let similar = self.is_similar(table, sizes, base + k);
            *tests += 1;
            dissimilar |= u64::from(!similar) << k;
        }
        dissimilar
    }

    // Tests the edges of a set for similarity, each once. Keeps those whose ends are not similar, and gives the count of tests.
    fn keep_dissimilar(&self, table: &sets::Table, sizes: &Sizes, set: &mut Edges) -> u32
        requires { (Counted table.now sizes.now) × ((k : ℕ) → bit_at set.old k ≡ 1 → k < self.now.h.m) }
        ensures kept { EdgeSet set.new
            (λ k. eqb (bit_at set.old k) 1
            && not (enough_at table.now sizes.now self.now.h.p self.now.h.q self.now.edges.now k)) }
        ensures counted { result ≡ sum edges_most (bit_at set.old) }
    {
        let mut tests = 0;
        for j in 0..self.words() {
            set[j] = self.dissimilar_word(set[j], 64 * j, table, sizes, &mut tests);
        }
        tests
    }

    // Whether both ends of edge k are within a set of handsets.
    fn is_within(&self, within: &sets::Row, k: usize) -> bool
        requires { k < self.now.h.m }
        ensures { result ≡ both_within within.now self.now.edges.now k }
    {
        let e = self.ends_at(k);
        sets::has(within, e.a) & sets::has(within, e.b)
    }

    // Of the edges base + k, for each set bit k of the word, those with both ends within a set of handsets, as a word. Not one function with `dissimilar_word`
    // over a test that is passed in: each closure would need its own requires and ensures, which is no plainer.
    fn within_word(&self, word: u64, base: usize, within: &sets::Row) -> u64
        requires { (k : ℕ) → T (in_word word base k) → k < self.now.h.m }
        ensures { WordOf result (λ k. eqb (bit_of word k) 1 && both_within within.now self.now.edges.now (base + k)) }
    {
        let mut inside = 0;
        for k in sets::set_bits(word) {
            inside |= u64::from(self.is_within(within, base + k)) << k;
        }
        inside
    }

    // Keeps those edges of the set `near` that have both ends within a set of handsets, and drops the others of them.
    fn drop_outside(
        &self,
        within: &sets::Row,
        near: &mut Edges,
        table: &mut sets::Table,
        sizes: &mut Sizes,
    )
        requires { (Counted table.old sizes.old) × ((k : ℕ) → bit_at near.old k ≡ 1 → k < self.now.h.m) }
        ensures kept { EdgeSet near.new
            (λ k. eqb (bit_at near.old k) 1 && both_within within.now self.now.edges.now k) }
        ensures dropped { Dropped self.now.edges.now
            (λ k. eqb (bit_at near.old k) 1 && not (both_within within.now self.now.edges.now k)) table.old table.new }
        ensures counted { Counted table.new sizes.new }
    {
        for j in 0..self.words() {
            let all = near[j];
            let inside = self.within_word(all, 64 * j, within);
            self.drop_edges(inside ^ all, 64 * j, table, sizes);
            near[j] = inside;
        }
    }
}

// Fills the empty set `cores` with the handsets below n whose size is at least mu, without a branch.
fn mark_cores(sizes: &Sizes, n: usize, mu: u32, cores: &mut sets::Row)
    requires { (n ≤ 512) × (cores.old ≡ zeros 8) }
    ensures { SetOf cores.new (λ u. ltb u n && leb mu (get_or sizes.now u 0)) }
{
    for (u, size) in sizes[..n].iter().enumerate() {
        cores[u / 64] |= u64::from(mu <= *size) << (u % 64);
    }
}

// Opens an image by the reader and gives the reader's answer. After a yes the edges whose ends are not near are dropped from the rows that it leaves, so
// that the two tables hold the neighbour relation and the sizes of the neighbourhoods, and `near` the other edges. After a no all three are 0 everywhere. Their
// earlier contents are overwritten.
fn open_neighbours(
    image: &[u8],
    near: &mut Edges,
    table: &mut sets::Table,
    sizes: &mut Sizes,
) -> Result<Header, Refusal>
    ensures { NeighboursRead image.now result near.new table.new sizes.new }
{
    *near = [0u64; EDGE_WORDS];
    let opened = image::open_rows(image, table, sizes);
    let Ok(h) = opened else {
        return opened;
    };
    let records = Records::of_image(image, h);
    records.drop_far(near, table, sizes);
    opened
}

// Finds the communities of the network that the tables hold, and gives how many there are, and how many tests were made. They become the first rows of the
// table, and `cores` gets the cores. On the way the near edges whose ends are not similar are dropped, which leaves the similarity relation; the set of near
// edges keeps those, and the sizes become those of this relation. After the reader's no there are none, and the tables stay.
fn find_groups(
    image: &[u8],
    opened: Result<Header, Refusal>,
    near: &mut Edges,
    table: &mut sets::Table,
    sizes: &mut Sizes,
    cores: &mut sets::Row,
) -> SiteGroups
    requires { DrawnAfter image.now opened near.old table.old sizes.old }
    ensures { GroupsFound image.now opened near.old table.old result table.new cores.new }
{
    *cores = [0u64; sets::ROW_WORDS];
    let Ok(h) = opened else {
        return SiteGroups {
            opened,
            groups: 0,
            tests: 0,
        };
    };
    let records = Records::of_image(image, h);
    let tests = records.keep_dissimilar(table, sizes, near);
    records.drop_set(near, table, sizes);
    mark_cores(sizes, h.n as usize, fields::core_size(h.mu) as u32, cores);
    let groups = search::find_communities(table, cores);
    SiteGroups {
        opened,
        groups,
        tests,
    }
}

// Opens an image by the reader and finds its communities. After a yes the first rows of the table are the communities, and `cores` is the set of the cores.
// After a no both are 0 everywhere, and so are the counts. Their earlier contents are overwritten.
pub fn find_rows(
    image: &[u8],
    table: &mut [u64; sets::TABLE_WORDS],
    cores: &mut [u64; 8],
) -> SiteGroups
    ensures { RowsFound image.now (network image.now) result table.new cores.new }
{
    let mut near = [0u64; EDGE_WORDS];
    let mut sizes = [0u32; 512];
    let opened = open_neighbours(image, &mut near, table, &mut sizes);
    find_groups(image, opened, &mut near, table, &mut sizes, cores)
}

// The same, with the near edges and the near counts of the site: `near` is the set of the near edges, and the sizes are those of the neighbourhoods.
pub fn find_site(
    image: &[u8],
    near: &mut [u64; EDGE_WORDS],
    table: &mut [u64; sets::TABLE_WORDS],
    sizes: &mut [u32; 512],
    cores: &mut [u64; 8],
) -> SiteGroups
    ensures { SiteFound image.now (network image.now) result near.new table.new
        sizes.new cores.new }
{
    let opened = open_neighbours(image, near, table, sizes);
    let mut tested = *near;
    let mut left = *sizes;
    find_groups(image, opened, &mut tested, table, &mut left, cores)
}

// ---- within a set of handsets

// Takes each handset below n that is outside a set of handsets out of its own row.
fn take_outside(within: &sets::Row, n: usize, table: &mut sets::Table, sizes: &mut Sizes)
    requires { (n ≤ 512) × (Counted table.old sizes.old) }
    ensures taken { SelfTaken within.now n table.old table.new }
    ensures counted { Counted table.new sizes.new }
{
    for v in 0..n {
        if !sets::has(within, v) {
            take_out(table, sizes, v, v);
        }
    }
}

// Makes the neighbour table of a site, its sizes and its near edges those of the handsets within a set: the edges with an end outside are dropped, and the
// handsets outside have no neighbours, not even themselves.
fn keep_within(
    image: &[u8],
    h: Header,
    within: &sets::Row,
    near: &mut Edges,
    table: &mut sets::Table,
    sizes: &mut Sizes,
)
    requires { Drawn image.now h near.old table.old sizes.old }
    ensures drawn { Drawn image.now h near.new table.new sizes.new }
    ensures held { HeldWithin image.now within.now near.old table.old near.new
        table.new }
{
    let records = Records::of_image(image, h);
    records.drop_outside(within, near, table, sizes);
    take_outside(within, h.n as usize, table, sizes);
}

// Opens an image by the reader and finds the communities of the handsets within a set, with the edges between them, under the site's numbers. After a yes the
// first rows of the table are these communities and `cores` is the set of their cores; `near` and the sizes are the near edges and the near counts of the whole
// site. After a no everything is 0, as after `find_site`.
pub fn find_part(
    image: &[u8],
    within: &[u64; 8],
    near: &mut [u64; EDGE_WORDS],
    table: &mut [u64; sets::TABLE_WORDS],
    sizes: &mut [u32; 512],
    cores: &mut [u64; 8],
) -> SiteGroups
    ensures { PartFound image.now within.now result near.new table.new sizes.new cores.new }
{
    let opened = open_neighbours(image, near, table, sizes);
    let mut inside = *near;
    let mut left = *sizes;
    if let Ok(h) = opened {
        keep_within(image, h, within, &mut inside, table, &mut left);
    }
    find_groups(image, opened, &mut inside, table, &mut left, cores)
}
