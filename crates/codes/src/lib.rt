// The answers of the calls on an image as the numbers that C gets: one function for each call's answer. Those of the calls on tables are in `table_codes`.
//
// The definitions are in specs/Codes, and a caller needs nothing else: each function gives exactly the code of what it is handed, for every answer, also
// one that no call gives. Where a number may be larger than its share of the code it is cut off; divanegret/specs/Lossless says that no call's answer is.
// No From exists from usize to u64, nor from u64 to i64, so these are casts; each function here is one rule of docs/SITE-IMAGE.md for the number that C gets.
#![tactic(auto)]

ghost use Rattle.std.specs.Prelude.{◌≡◌, ◌<◌};
ghost use Rattle.codes.specs.Codes.{open_code, plan_code, kind_code, role_code, tally_code, nearest_code, report_code};

use community::{Role, Standing};
use image::{Header, Refusal};
use nearest::NearestGroup;
use rows::Counts;
use scores::Tally;

// n and m of an opened image, or its refusal.
pub fn open_code(o: Result<Header, Refusal>) -> i64
    ensures { result ≡ open_code o }
{
    match o {
        Ok(h) => (u64::from(h.n) + 65536 * u64::from(h.m)) as i64,
        Err(r) => refusals::refusal_code(r),
    }
}

// The two counts of a plan, or its refusal.
pub fn plan_code(p: Result<Counts, Refusal>) -> i64
    ensures { result ≡ plan_code p }
{
    match p {
        Ok(c) => {
            ((c.groups as u64).min(65535) + 65536 * (c.memberships as u64).min(65535)) as i64
        }
        Err(r) => refusals::refusal_code(r),
    }
}

// A role's kind, and its community's number or its count of communities.
fn kind_code(role: Role) -> u64
    ensures { (result ≡ kind_code role) × (result < 4294967296) }
{
    match role {
        Role::Core(k) => 65536 * (k as u64).min(65535),
        Role::Border(k) => 1 + 65536 * (k as u64).min(65535),
        Role::Outlier => 2,
    }
}

// The near count and the role of a handset, or the refusal.
pub fn role_code(known: Result<Standing, Refusal>) -> i64
    ensures { result ≡ role_code known }
{
    match known {
        Ok(x) => {
            let role = x.role;
            (kind_code(role) + 4294967296 * u64::from(x.neighbours).min(65535)) as i64
        }
        Err(r) => refusals::refusal_code(r),
    }
}

// s, t and o of a list, or the refusal.
pub fn tally_code(t: Result<Tally, Refusal>) -> i64
    ensures { result ≡ tally_code t }
{
    match t {
        Ok(x) => {
            let inner = u64::from(x.leaving).min(65535) + 65536 * u64::from(x.joined).min(1048575);
            (inner + 68719476736 * u64::from(x.pairs).min(1048575)) as i64
        }
        Err(r) => refusals::refusal_code(r),
    }
}

// The nearest group and its squared distance, 0 where there are no groups, or the refusal.
pub fn nearest_code(nearest: Result<Option<NearestGroup>, Refusal>) -> i64
    ensures { result ≡ nearest_code nearest }
{
    match nearest {
        Ok(Some(found)) => {
            (1 + 2 * (found.group as u64).min(32767)
                + 65536 * found.squared_distance.min(140737488355327)) as i64
        }
        Ok(None) => 0,
        Err(r) => refusals::refusal_code(r),
    }
}

// The text's length, or the refusal's number made negative, without its place.
pub fn report_code(reported: Result<usize, Refusal>) -> i64
    ensures { result ≡ report_code reported }
{
    match reported {
        Ok(length) => (length as u64).min(9223372036854775807) as i64,
        Err(r) => -i64::from(r.number),
    }
}
