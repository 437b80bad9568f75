// A point of the site, such as a berth: three signed coordinates, question 17, and the squared distance to a handset.
//
// The definitions are in specs/Points. Each coordinate is taken plus 2 ^ 31, as the image's are, so that the distance is computed with numbers that are never
// negative; callers cite proofs/Distances, where the distance is exact for a point and a handset within the limits.
#![tactic(auto)]

ghost use Rattle.std.specs.Prelude.{◌≡◌, ◌%◌, ◌^◌, [], ◌∷◌};
ghost use Rattle.image.specs.Image.{handset_record};
ghost use Rattle.image.specs.Signed.{raised, within_limits};
ghost use Rattle.points.specs.Points.{point_in_limits, distance_from};

// A signed coordinate plus 2 ^ 31.
pub fn raise(x: i32) -> u32
    ensures { result ≡ raised x }
{
    (x as i64 + fields::RAISE as i64) as u32
}

// Whether a signed coordinate is within the limits.
fn is_within_limits(x: i32) -> bool
    ensures { result ≡ within_limits x }
{
    fields::in_limits(raise(x))
}

// A point: any three coordinates.
#[derive(Clone, Copy)]
pub struct Point {
    pub x: i32,
    pub y: i32,
    pub z: i32,
}

impl Point {
    // Question 17: whether every coordinate is within the limits.
    pub fn is_in_limits(self) -> bool
        ensures { result ≡ point_in_limits (self.x ∷ self.y ∷ self.z ∷ []) }
    {
        is_within_limits(self.x) & (is_within_limits(self.y) & is_within_limits(self.z))
    }

    // The coordinates, each plus 2 ^ 31.
    pub fn raised(self) -> [u32; fields::COORDINATES]
        ensures { result ≡ raised self.x ∷ raised self.y ∷ raised self.z ∷ [] }
    {
        [raise(self.x), raise(self.y), raise(self.z)]
    }
}

// The squared distance from a point, by its raised coordinates, to handset v of the handset records; a coordinate that is not there counts as 0. Exact below
// 2 ^ 64, where the distance of any two positions within the limits is.
pub fn distance_to(point: &[u32; fields::COORDINATES], handsets: &[u8], v: u16) -> u64
    ensures { result ≡ distance_from point.now (handset_record handsets.now v) % 2 ^ 64 }
{
    let at = fields::HANDSET_BYTES * (v as usize);
    let mut total = 0_u64;
    for (i, x) in point.iter().enumerate() {
        let coordinate = fields::coordinate(handsets, at + fields::COORDINATE_BYTES * i);
        total = total.wrapping_add(fields::squared_gap(*x, coordinate));
    }
    total
}
