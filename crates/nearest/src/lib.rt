// Which group stands nearest to a point: the least squared distance from the point to a member of any group, and the lowest group that has it.
//
// The definitions are in specs/Nearest, what they mean in specs/Meaning. The groups stand as rows of bits; each handset that is in one is measured once, however
// many groups it is in, and the handsets at the least distance so far are kept in a set. No From exists from u32 to usize, nor from usize to u16, so these are
// casts.
#![tactic(auto)]

ghost use Rattle.std.specs.Prelude.{Some, ◌≤◌, ◌<◌, ◌*◌, ◌≡◌, [], ◌∷◌, eqb};
ghost use Rattle.sets.specs.Bits.{bit_at};
ghost use Rattle.rows.specs.Rows.{rows_of};
ghost use Rattle.community.specs.Site.{communities_of};
ghost use Rattle.nearest.specs.Nearest.{nearest_in, nearest_of, nearest_answer};
ghost use Rattle.nearest.specs.ForProofs.{wrapped, Closest, Takes, TakesWord, RowsFilled, PointHeld};

use image::{Header, Question, Refusal};
use points::Point;
use rows::Groups;

// The nearest group: its number, and the squared distance of its nearest member.
#[derive(Clone, Copy)]
pub struct NearestGroup {
    pub group: usize,
    pub squared_distance: u64,
}

// Measures handset v, and gives the least squared distance so far. The set `closest` has the handsets at that distance: v is added where it is as near as the
// nearest so far, and is alone in it where it is nearer or the first.
fn take_closer<'a>(
    point: &'a [u32; fields::COORDINATES],
    handsets: &'a [u8],
    v: usize,
    least: Option<u64>,
    closest: &mut sets::Row,
) -> u64
    requires { v < 512 }
    ensures { Takes (wrapped point.now handsets.now) v least closest.old (Some result) closest.new }
{
    let d = points::distance_to(point, handsets, v as u16);
    match least {
        Some(least) if least < d => least,
        Some(least) if least == d => {
            sets::mark(closest, v);
            d
        }
        _ => {
            *closest = [0; sets::ROW_WORDS];
            sets::mark(closest, v);
            d
        }
    }
}

// Measures the handsets base + k, for each set bit k of the word.
#[tactic(auto, using(sets::proofs::Ascending::ones_below))]
fn take_word<'a>(
    point: &'a [u32; fields::COORDINATES],
    handsets: &'a [u8],
    word: u64,
    base: usize,
    before: Option<u64>,
    closest: &mut sets::Row,
) -> Option<u64>
    requires { base ≤ 448 }
    ensures { TakesWord (wrapped point.now handsets.now) word base before closest.old result closest.new }
{
    let mut least = before;
    for k in sets::set_bits(word) {
        least = Some(take_closer(point, handsets, base + k, least, closest));
    }
    least
}

// The least squared distance from the point to a handset of the set, which is None where the set is empty; `closest` gets the handsets at that distance.
fn find_closest<'a>(
    point: &'a [u32; fields::COORDINATES],
    handsets: &'a [u8],
    set: &'a sets::Row,
    closest: &mut sets::Row,
) -> Option<u64>
    ensures { Closest (wrapped point.now handsets.now) (λ v. eqb (bit_at set.now v) 1) result closest.new }
{
    *closest = [0; sets::ROW_WORDS];
    let mut least = None;
    for (j, word) in set.iter().enumerate() {
        least = take_word(point, handsets, *word, j * 64, least, closest);
    }
    least
}

// The nearest of the groups, each of which has a member.
fn nearest_of<'a>(
    point: &'a [u32; fields::COORDINATES],
    handsets: &'a [u8],
    groups: Groups<'a>,
) -> Result<Option<NearestGroup>, Refusal>
    requires { RowsFilled groups.rows.now groups.count }
    ensures { result ≡ nearest_in (wrapped point.now handsets.now) (rows_of groups.entry.rows.now groups.entry.count) }
{
    let mut once = [0; sets::ROW_WORDS];
    let mut twice = [0; sets::ROW_WORDS];
    groups.find_members(&mut once, &mut twice);
    let mut closest = [0; sets::ROW_WORDS];
    let Some(least) = find_closest(point, handsets, &once, &mut closest) else {
        return Ok(None);
    };
    match groups.first_meeting(&closest) {
        Some(group) => Ok(Some(NearestGroup {
            group,
            squared_distance: least,
        })),
        None => Ok(None),
    }
}

// The nearest group of an accepted image with the header h, whose communities are the groups.
fn nearest_site<'a>(
    image: &'a [u8],
    h: Header,
    groups: Groups<'a>,
    point: Point,
) -> Result<Option<NearestGroup>, Refusal>
    requires { (PointHeld image.now h (point.x ∷ point.y ∷ point.z ∷ [])) × ((groups.count ≤ 512) × (rows_of groups.rows.now groups.count ≡ communities_of image.now)) }
    ensures { result ≡ nearest_of image.now (point.x ∷ point.y ∷ point.z ∷ []) }
{
    let start = h.handsets as usize;
    let end = start + fields::HANDSET_BYTES * usize::from(h.n);
    nearest_of(&point.raised(), &image[start..end], groups)
}

// The group that stands nearest to a point, and the squared distance of its nearest member; of groups at the same distance the lowest. A refused
// image ends the call with its refusal, a point out of the limits with 17. None is that there are no groups.
pub fn nearest_group(image: &[u8], point: Point) -> Result<Option<NearestGroup>, Refusal>
    ensures { nearest_answer result ≡ nearest_answer (nearest_of image.now (point.x ∷ point.y ∷ point.z ∷ [])) }
{
    let mut table = [0; sets::TABLE_WORDS];
    let mut cores = [0; sets::ROW_WORDS];
    let found = graph::find_rows(image, &mut table, &mut cores);
    let opened = found.opened;
    let Ok(h) = opened else {
        return Err(refusals::refusal_of(opened));
    };
    if point.is_in_limits() {
        let groups = Groups {
            rows: &table,
            count: found.groups,
        };
        return nearest_site(image, h, groups, point);
    }
    Err(Question::Point.refused())
}
