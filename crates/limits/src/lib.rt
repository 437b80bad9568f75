// Questions 3, 4, 5 and 7 of an image, put to any numbers, and the limits that they ask about. The reader and the writer both ask by these.
//
// The definitions are in specs/Limits.
#![tactic(auto)]

ghost use Rattle.std.specs.Prelude.{◌≡◌};
ghost use Rattle.limits.specs.Limits.{counts_fit, width_fits, thresholds_fit, out_of_limits};

// The most handsets and edges that a site may have.
pub const HANDSETS_MOST: usize = 512;

pub const EDGES_MOST: usize = 4096;

// The most that G, the square of the near distance, may be.
pub const LIMIT_MOST: u64 = 12000000000000;

// Question 3, of any counts.
pub fn counts_fit(n: u64, m: u64) -> bool
    ensures { result ≡ counts_fit n m }
{
    (n <= HANDSETS_MOST as u64) & (m <= EDGES_MOST as u64)
}

// Question 4, of any width.
pub fn width_fits(width: u16) -> bool
    ensures { result ≡ width_fits width }
{
    width as usize == fields::HANDSET_BYTES
}

// Question 5, of any thresholds.
pub fn thresholds_fit(limit: u64, p: u64, q: u64, mu: u64) -> bool
    ensures { result ≡ thresholds_fit limit p q mu }
{
    (limit <= LIMIT_MOST) & ((1 <= p) & ((p <= q) & ((q <= 1000) & (mu <= 512))))
}

// Question 7 of a handset's record: whether a coordinate is out of its limits.
pub fn out_of_limits(handset: &[u8]) -> bool
    ensures { result ≡ out_of_limits handset.now }
{
    // Without a branch: by `any` over the coordinates, tried, opening a site of 512 handsets without edges takes a quarter longer (measured).
    let mut bad = false;
    for i in 0..fields::COORDINATES {
        bad |= !fields::in_limits(fields::coordinate(handset, fields::COORDINATE_BYTES * i));
    }
    bad
}
