// The planner for firmware written in C: each call of the library as one number. include/divanegret.h documents it.
//
// Each call is that of the library, and a function of `codes` that makes a number of its answer. specs/Lossless says that the number holds all of the answer.
#![tactic(auto)]

ghost use Rattle.std.specs.Prelude.{◌≡◌, [], ◌∷◌, length};
ghost use Rattle.image.specs.Questions.{open_of};
ghost use Rattle.planner.specs.Plan.{plan_of, starts_after, members_after, known_of};
ghost use Rattle.scores.specs.Scored.{tallied_of};
ghost use Rattle.reporting.specs.Report.{report_of, text_after};
ghost use Rattle.lookup.specs.Lookup.{looked_of};
ghost use Rattle.schedule.specs.Schedule.{choice_of, scheduled_of};
ghost use Rattle.nearest.specs.Nearest.{nearest_of};
ghost use Rattle.writer.specs.Writer.{encoded_of, buffer_after};
ghost use Rattle.codes.specs.Codes.{open_code, plan_code, role_code, tally_code, nearest_code, report_code};
ghost use Rattle.table_codes.specs.Codes.{count_code, scheduled_code};

use dates::Date;
use layout::Parameters;
use lookup::Plan;
use points::Point;
use schedule::{Time, Window};

// The report of an image, in the text buffer.
#[unsafe(no_mangle)]
pub extern "C" fn dvg_report(image: &[u8], text: &mut [u8]) -> i64
    ensures { (result ≡ report_code (report_of image.now (length text.old))) × (text.new ≡ text_after image.now text.old) }
{
    codes::report_code(reporting::report(image, text))
}

// Questions 1 to 10.
#[unsafe(no_mangle)]
pub extern "C" fn dvg_open(image: &[u8]) -> i64
    ensures { result ≡ open_code (open_of image.now) }
{
    codes::open_code(image::open(image))
}

// The plan in both tables.
#[unsafe(no_mangle)]
pub extern "C" fn dvg_plan(image: &[u8], starts: &mut [u32], members: &mut [u16]) -> i64
    ensures { (result ≡ plan_code (plan_of image.now (length starts.old) (length members.old))) × (starts.new ≡ starts_after image.now starts.old (length members.old)) × (members.new ≡ members_after image.now (length starts.old) members.old) }
{
    codes::plan_code(planner::plan(image, starts, members))
}

// The role of a handset.
#[unsafe(no_mangle)]
pub extern "C" fn dvg_role(image: &[u8], handset: usize) -> i64
    ensures { result ≡ role_code (known_of image.now handset) }
{
    codes::role_code(planner::role(image, handset))
}

// s, t and o of a list.
#[unsafe(no_mangle)]
pub extern "C" fn dvg_scores(image: &[u8], list: &[u16]) -> i64
    ensures { result ≡ tally_code (tallied_of image.now list.now) }
{
    codes::tally_code(scores::tally_list(image, list))
}

// The count of members of group k.
#[unsafe(no_mangle)]
pub extern "C" fn dvg_members(starts: &[u32], members: &[u16], k: usize) -> i64
    ensures { result ≡ count_code (looked_of starts.now members.now k) }
{
    let plan = Plan { starts, members };
    table_codes::count_code(plan.find_group(k))
}

// The count of members of group k in the plan for a time.
#[unsafe(no_mangle)]
pub extern "C" fn dvg_members_at(
    year: u32,
    month: u32,
    day: u32,
    minute: u32,
    opening: u32,
    closing: u32,
    k: usize,
    workday_starts: &[u32],
    workday_members: &[u16],
    restday_starts: &[u32],
    restday_members: &[u16],
) -> i64
    ensures { result ≡ scheduled_code (scheduled_of (choice_of (record { date = record { year = year; month = month; day = day }; minute = minute }) (record { opening = opening; closing = closing })) (looked_of workday_starts.now workday_members.now k) (looked_of restday_starts.now restday_members.now k)) }
{
    let time = Time {
        date: Date { year, month, day },
        minute,
    };
    let window = Window { opening, closing };
    let workday = Plan {
        starts: workday_starts,
        members: workday_members,
    };
    let restday = Plan {
        starts: restday_starts,
        members: restday_members,
    };
    table_codes::scheduled_code(schedule::find_group_at(time, window, k, workday, restday))
}

// The group nearest to a point.
#[unsafe(no_mangle)]
pub extern "C" fn dvg_nearest(image: &[u8], x: i32, y: i32, z: i32) -> i64
    ensures { result ≡ nearest_code (nearest_of image.now (x ∷ y ∷ z ∷ [])) }
{
    codes::nearest_code(nearest::nearest_group(image, Point { x, y, z }))
}

// The image of a site, written into the buffer.
#[unsafe(no_mangle)]
pub extern "C" fn dvg_write(
    n: u64,
    m: u64,
    limit: u64,
    p: u64,
    q: u64,
    mu: u64,
    coordinates: &[i32],
    ends: &[u16],
    buffer: &mut [u8],
) -> i64
    ensures { (result ≡ count_code (encoded_of (record { n = n; m = m; limit = limit; p = p; q = q; mu = mu }) coordinates.now ends.now (length buffer.old))) × (buffer.new ≡ buffer_after (record { n = n; m = m; limit = limit; p = p; q = q; mu = mu }) coordinates.now ends.now buffer.old) }
{
    let x = Parameters {
        n,
        m,
        limit,
        p,
        q,
        mu,
    };
    table_codes::count_code(writer::write(x, coordinates, ends, buffer))
}
