// The answers of the calls on tables as the numbers that C gets: the lookup, the lookup at a time, and the writer. Those of the calls on an image are in `codes`.
//
// The definitions are in specs/Codes. Where a number may be larger than its share of the code it is cut off; divanegret/specs/Lossless says that no call's answer is.
// No From exists from usize to u64, nor from u64 to i64, so these are casts; each function here is one rule of docs/SITE-IMAGE.md for the number that C gets.
#![tactic(auto)]

ghost use Rattle.std.specs.Prelude.{◌≡◌};
ghost use Rattle.table_codes.specs.Codes.{count_code, scheduled_code};

use image::Refusal;
use schedule::{Day, Scheduled};

// A count or a length, or the refusal: of the members of a group, and of an image that was written.
pub fn count_code(counted: Result<usize, Refusal>) -> i64
    ensures { result ≡ count_code counted }
{
    match counted {
        Ok(count) => (count as u64).min(9223372036854775807) as i64,
        Err(r) => refusals::refusal_code(r),
    }
}

// The plan and the count of the group's members in it, or the refusal.
pub fn scheduled_code(scheduled: Result<Scheduled, Refusal>) -> i64
    ensures { result ≡ scheduled_code scheduled }
{
    let found = match scheduled {
        Ok(found) => found,
        Err(r) => return refusals::refusal_code(r),
    };
    let table = match found.day {
        Day::Workday => 0,
        Day::Restday => 1,
    };
    (table + 2 * (found.count as u64).min(4611686018427387903)) as i64
}
