// The fields of a site image: a coordinate with its limits and gaps, the ends of an edge, the core size.
//
// Every read is of a place that may not be there, and then gives 0, as those of `little_endian` do.
#![tactic(auto)]

ghost use Rattle.std.specs.Prelude.{◌≡◌, ◌*◌, ◌<◌, pos, nat_abs, ◌-ℤ◌};
ghost use Rattle.little_endian.specs.Bytes.{number};
ghost use Rattle.fields.specs.Fields.{coordinate_bytes, core_size, shifted, in_limits, gap, ends_of};

// How many bytes the header has.
pub const HEADER_BYTES: usize = 32;

// How many bytes a coordinate has.
pub const COORDINATE_BYTES: usize = 4;

// How many coordinates a handset's record has, x, y and z, and how many bytes that makes, the record's width.
pub const COORDINATES: usize = 3;

pub const HANDSET_BYTES: usize = COORDINATE_BYTES * COORDINATES;

// What is added to a coordinate so that it is never negative.
pub const RAISE: u32 = 1 << 31;

// How far from 0 a coordinate may be.
const COORDINATE_LIMIT: u32 = 1000000;

// How many bytes an end has, how many ends an edge's record has, and how many bytes that makes.
pub const END_BYTES: usize = 2;

pub const ENDS: usize = 2;

pub const EDGE_BYTES: usize = END_BYTES * ENDS;

// What a blank mu, 0, means.
const BLANK_MU: u16 = 4;

// The coordinate at a place, plus 2 ^ 31, so that it is never negative.
pub fn coordinate(records: &[u8], at: usize) -> u32
    ensures { result ≡ shifted (number coordinate_bytes records.now at) }
{
    little_endian::read::<u32>(records, at).wrapping_add(RAISE)
}

// Whether a coordinate, plus 2 ^ 31, is no farther from 2 ^ 31 than the limit.
pub fn in_limits(x: u32) -> bool
    ensures { result ≡ in_limits x }
{
    (RAISE - COORDINATE_LIMIT..=RAISE + COORDINATE_LIMIT).contains(&x)
}

// The square of a difference of two coordinates.
fn square(d: i64) -> u64
    requires { nat_abs d < 4294967296 }
    ensures { result ≡ nat_abs d * nat_abs d }
{
    let size = d.unsigned_abs();
    size * size
}

// The square of how far apart two coordinates, each plus 2 ^ 31, are.
pub fn squared_gap(a: u32, b: u32) -> u64
    ensures { result ≡ gap a b * gap a b }
{
    square((a as i64) - (b as i64))
}

// The coordinate at a place, as the signed number that it is: the compiler then reads it with its sign and adds nothing.
fn signed(records: &[u8], at: usize) -> i64
    ensures { result ≡ pos (shifted (number coordinate_bytes records.now at)) -ℤ pos 2147483648 }
{
    coordinate(records, at) as i64 - RAISE as i64
}

// The square of how far apart the coordinates at one place of two records are.
pub fn squared_gap_at(a: &[u8], b: &[u8], at: usize) -> u64
    ensures { result ≡ (let x = shifted (number coordinate_bytes a.now at) in let y = shifted (number coordinate_bytes b.now at) in gap x y * gap x y) }
{
    square(signed(a, at) - signed(b, at))
}

// The two ends of an edge.
#[derive(Clone, Copy)]
pub struct Ends {
    pub a: usize,
    pub b: usize,
}

// The two ends of an edge, from its record; 0 for one that is not there.
pub fn read_ends(edge: &[u8]) -> Ends
    ensures { result ≡ ends_of edge.now }
{
    Ends {
        a: little_endian::read::<u16>(edge, 0) as usize,
        b: little_endian::read::<u16>(edge, END_BYTES) as usize,
    }
}

// How many handsets make a core: mu, or BLANK_MU where it is 0.
pub fn core_size(mu: u16) -> u16
    ensures { result ≡ core_size mu }
{
    if mu == 0 { BLANK_MU } else { mu }
}
