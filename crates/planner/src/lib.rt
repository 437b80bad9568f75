// The planner: the communities of a site, written into two lent tables, and the role of each handset.
//
// The crate `graph` opens the image and finds its communities, as rows of bits; the crate `tables` counts and writes them. The calls work everything out on the
// stack, and write only when nothing is left to refuse.
#![tactic(auto)]

ghost use Rattle.std.specs.Prelude.{◌≡◌};
ghost use Rattle.planner.specs.Plan.{PlanCall, known_answer, known_of};

use community::Standing;
use image::{Question, Refusal};
use rows::{Counts, Groups};

// The plan of an image in both tables. A refusal writes nothing.
pub fn plan(image: &[u8], starts: &mut [u32], members: &mut [u16]) -> Result<Counts, Refusal>
    ensures { PlanCall image.now starts.old members.old result starts.new members.new }
{
    let mut table = [0u64; sets::TABLE_WORDS];
    let mut cores = [0u64; 8];
    let found = graph::find_rows(image, &mut table, &mut cores);
    let Ok(_) = found.opened else {
        return Err(refusals::refusal_of(found.opened));
    };
    let groups = Groups {
        rows: &table,
        count: found.groups,
    };
    tables::write_plan(groups, starts, members)
}

// The near count and the role of handset v.
pub fn role(image: &[u8], v: usize) -> Result<Standing, Refusal>
    ensures { known_answer result ≡ known_answer (known_of image.now v) }
{
    let mut near = [0u64; graph::EDGE_WORDS];
    let mut table = [0u64; sets::TABLE_WORDS];
    let mut sizes = [0u32; 512];
    let mut cores = [0u64; 8];
    let found = graph::find_site(image, &mut near, &mut table, &mut sizes, &mut cores);
    let opened = found.opened;
    let Ok(h) = opened else {
        return Err(refusals::refusal_of(opened));
    };
    if usize::from(h.n) <= v {
        return Err(Question::Handset.refused());
    }
    let groups = Groups {
        rows: &table,
        count: found.groups,
    };
    let role = tables::role_in(&cores, groups, v);
    Ok(Standing {
        neighbours: sizes[v],
        role,
    })
}
