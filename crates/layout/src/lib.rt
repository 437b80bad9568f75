// A site image made of numbers: the header, the handsets directly after it, the edges directly after them.
//
// The definitions are in specs/Layout. `put_image` writes an image at the front of a buffer, and nothing where the tables are not those of its counts or the
// buffer is too short; it does not ask whether the reader would accept it. proofs/Reading has what the reader finds in such an image. No From exists between usize
// and u32 or u64, so these are casts.
#![tactic(auto)]

ghost use Rattle.std.specs.Prelude.{◌+◌, ◌*◌, ◌≤◌, ◌≡◌, length};
ghost use Rattle.std.proofs.lemmas.List.Edits.{sets};
ghost use Rattle.fields.specs.Fields.{coordinate_bytes, end_bytes, header_bytes};
ghost use Rattle.layout.specs.Layout.{word32, handset_table, edge_table, lengths_fit, Put};
ghost use Rattle.layout.specs.ForProofs.{counts_bytes, thresholds_bytes};

// The length of the longest image.
pub const IMAGE_MOST: usize = fields::HEADER_BYTES
    + fields::HANDSET_BYTES * limits::HANDSETS_MOST
    + fields::EDGE_BYTES * limits::EDGES_MOST;

// The numbers of a header that whoever writes an image chooses, as wide as they come: `limit` is G, and a blank `mu` is 0.
#[derive(Clone, Copy)]
pub struct Parameters {
    pub n: u64,
    pub m: u64,
    pub limit: u64,
    pub p: u64,
    pub q: u64,
    pub mu: u64,
}

// Question 6 of the writer: whether two tables have just the numbers that n handsets and m edges need.
pub fn lengths_fit(x: Parameters, coordinates: usize, ends: usize) -> bool
    ensures { result ≡ lengths_fit x coordinates ends }
{
    let handsets = (coordinates / fields::COORDINATES) as u64;
    let edges = (ends / fields::ENDS) as u64;
    ((coordinates % fields::COORDINATES == 0) & (handsets == x.n))
        & ((ends % fields::ENDS == 0) & (edges == x.m))
}

// A coordinate as the number in its bytes, two's complement: 2 ^ 31 more than the raised one, which comes round at 2 ^ 32.
fn word(x: i32) -> u64
    ensures { result ≡ word32 x }
{
    u64::from(points::raise(x).wrapping_add(fields::RAISE))
}

// Writes the counts of handsets and edges, where their records begin, and the length of the image: the first half of the header.
fn put_counts(s: &mut [u8], n: u64, m: u64, edges: u64, len: u64)
    requires { header_bytes ≤ length s.old }
    ensures { s.new ≡ sets s.old 0 (counts_bytes n m edges len) }
{
    little_endian::write(s, 0, 2, n);
    little_endian::write(s, 2, 2, m);
    little_endian::write(s, 4, 4, fields::HEADER_BYTES as u64);
    little_endian::write(s, 8, 4, edges);
    little_endian::write(s, 12, 4, len);
}

// Writes the thresholds and the width of a handset's record: the second half of the header.
fn put_thresholds(s: &mut [u8], limit: u64, p: u64, q: u64, mu: u64)
    requires { header_bytes ≤ length s.old }
    ensures { s.new ≡ sets s.old 16 (thresholds_bytes limit p q mu) }
{
    little_endian::write(s, 16, 8, limit);
    little_endian::write(s, 24, 2, p);
    little_endian::write(s, 26, 2, q);
    little_endian::write(s, 28, 2, mu);
    little_endian::write(s, 30, 2, fields::HANDSET_BYTES as u64);
}

// Writes the coordinates of the handsets, one after the other, directly after the header.
fn put_coordinates(s: &mut [u8], coordinates: &[i32])
    requires { header_bytes + coordinate_bytes * length coordinates.now ≤ length s.old }
    ensures { s.new ≡ sets s.old header_bytes (handset_table coordinates.now) }
{
    for (i, x) in coordinates.iter().enumerate() {
        let at = fields::HEADER_BYTES + fields::COORDINATE_BYTES * i;
        little_endian::write(s, at, fields::COORDINATE_BYTES, word(*x));
    }
}

// Writes the ends of the edges, one after the other, from a place on, which has 32 bits so that no sum wraps.
fn put_ends(s: &mut [u8], from: u32, ends: &[u16])
    requires { from + end_bytes * length ends.now ≤ length s.old }
    ensures { s.new ≡ sets s.old from (edge_table ends.now) }
{
    for (i, v) in ends.iter().enumerate() {
        let at = from as usize + fields::END_BYTES * i;
        little_endian::write(s, at, fields::END_BYTES, u64::from(*v));
    }
}

// Writes an image at the front of a buffer, and gives its length; nothing and 0 where the counts are past their limits, the tables are not those of the counts,
// or the buffer is too short. Not an Option: the writer asks the questions that rule 0 out first, and would take apart one that is always Some.
pub fn put_image(s: &mut [u8], x: Parameters, coordinates: &[i32], ends: &[u16]) -> usize
    ensures { Put x coordinates.now ends.now s.old result s.new }
{
    if !limits::counts_fit(x.n, x.m) {
        return 0;
    }
    let edges = fields::HEADER_BYTES + fields::HANDSET_BYTES * (x.n as usize);
    let len = edges + fields::EDGE_BYTES * (x.m as usize);
    if !(lengths_fit(x, coordinates.len(), ends.len()) & (len <= s.len())) {
        return 0;
    }
    put_counts(s, x.n, x.m, edges as u64, len as u64);
    put_thresholds(s, x.limit, x.p, x.q, x.mu);
    put_coordinates(s, coordinates);
    put_ends(s, edges as u32, ends);
    len
}
