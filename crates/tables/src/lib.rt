// The tables of a plan and the role of a handset, from the communities as rows of bits: eight words to a row, one bit a handset.
//
// Counting comes first, so that a refusal writes nothing; a row's members are found word by word, by the lowest set bit. More than 512 rows count as 512. The
// definitions are in specs/Plan. No From exists from usize to u16 or u32, so these are casts.
#![tactic(auto)]

ghost use Rattle.std.specs.Prelude.{◌≡◌, ◌+◌, ◌≤◌, ◌<◌, min, length, MatchOption};
ghost use Rattle.std.proofs.lemmas.List.Edits.{sets};
ghost use Rattle.community.specs.Network.{contains, community_number, membership_count, role_values};
ghost use Rattle.community.specs.Tables.{start_table, member_table};
ghost use Rattle.rows.specs.Rows.{row_members, rows_of};
ghost use Rattle.tables.specs.ForProofs.{word_members};
ghost use Rattle.tables.specs.Plan.{ask_room, over, table_after, PlanWritten, role_for};

use community::Role;
use image::{Question, Refusal};
use rows::{Counts, Groups};
use sets::{Row, Table};

// Writes base + k for each set bit k of the word, ascending, from the place `at` on, and gives the place after them. A zero word writes nothing.
fn write_word(word: u64, base: usize, members: &mut [u16], at: usize) -> usize
    requires { (base ≤ 448) × (at + length (word_members base word) ≤ length members.old) }
    ensures next { result ≡ at + length (word_members base word) }
    ensures written { members.new ≡ sets members.old at (word_members base word) }
{
    let mut place = at;
    for k in sets::set_bits(word) {
        members[place] = (base + k) as u16;
        place += 1;
    }
    place
}

// Writes the members of row k, ascending, from the place `at` on, and gives the place after them. An empty row writes nothing.
// No plainer with the rest of the table and a count for an answer: `write_tables` needs the place itself, for the start table.
fn write_row(rows: &Table, k: usize, members: &mut [u16], at: usize) -> usize
    requires { (k < 512) × (at + length (row_members rows.now k) ≤ length members.old) }
    ensures next { result ≡ at + length (row_members rows.now k) }
    ensures written { members.new ≡ sets members.old at (row_members rows.now k) }
{
    let mut place = at;
    for j in 0..8 {
        place = write_word(rows[k * 8 + j], j * 64, members, place);
    }
    place
}

// Writes both tables, from their first places on, and leaves the places after them alone. With no communities the start table gets a 0.
fn write_tables(groups: Groups<'_>, starts: &mut [u32], members: &mut [u16])
    requires { (groups.count ≤ 512) × (groups.count < length starts.old) × (length (member_table (rows_of groups.rows.now groups.count)) ≤ length members.old) }
    ensures started { starts.new ≡ over (start_table (rows_of groups.entry.rows.now groups.entry.count)) starts.old }
    ensures written { members.new ≡ over (member_table (rows_of groups.entry.rows.now groups.entry.count)) members.old }
{
    let mut place = 0;
    for k in 0..groups.count {
        starts[k] = place as u32;
        place = write_row(groups.rows, k, members, place);
    }
    starts[groups.count] = place as u32;
}

// Questions 11 and 12, of a plan's two counts and the two tables' lengths: the refusal, or the counts.
fn ask_room(
    groups: usize,
    memberships: usize,
    starts: usize,
    members: usize,
) -> Result<Counts, Refusal>
    ensures { result ≡ ask_room groups memberships starts members }
{
    if starts <= groups {
        return Err(Question::StartTable.refused());
    }
    if members < memberships {
        return Err(Question::MemberTable.refused());
    }
    Ok(Counts {
        groups,
        memberships,
    })
}

// Writes both tables where they fit, and nothing where one of them does not.
fn write_where_it_fits(
    groups: Groups<'_>,
    memberships: usize,
    starts: &mut [u32],
    members: &mut [u16],
)
    requires { (groups.count ≤ 512) × (memberships ≡ length (member_table (rows_of groups.rows.now groups.count))) }
    ensures started { starts.new ≡ table_after (rows_of groups.entry.rows.now groups.entry.count) (length starts.old) (length members.old) (start_table (rows_of groups.entry.rows.now groups.entry.count)) starts.old }
    ensures written { members.new ≡ table_after (rows_of groups.entry.rows.now groups.entry.count) (length starts.old) (length members.old) (member_table (rows_of groups.entry.rows.now groups.entry.count)) members.old }
{
    let fits = (groups.count < starts.len()) & (memberships <= members.len());
    if !fits {
        return;
    }
    write_tables(groups, starts, members);
}

// The plan of the communities in both tables, with its counts; or question 11 or 12, which writes nothing.
pub fn write_plan(
    groups: Groups<'_>,
    starts: &mut [u32],
    members: &mut [u16],
) -> Result<Counts, Refusal>
    ensures { PlanWritten (rows_of groups.entry.rows.now (min groups.entry.count 512)) starts.old members.old result starts.new members.new }
{
    let counts = groups.counts();
    let listed = Groups {
        rows: groups.rows,
        count: counts.groups,
    };
    write_where_it_fits(listed, counts.memberships, starts, members);
    ask_room(
        counts.groups,
        counts.memberships,
        starts.len(),
        members.len(),
    )
}

// Whether row k contains v; no row contains 512 or more.
fn in_row(rows: &Table, k: usize, v: usize) -> bool
    requires { k < 512 }
    ensures { result ≡ contains v (row_members rows.now k) }
{
    v < 512 && sets::has(rows, k * 512 + v)
}

// How many of the communities contain v.
fn count_containing(groups: Groups<'_>, v: usize) -> usize
    requires { groups.count ≤ 512 }
    ensures { result ≡ membership_count v (rows_of groups.entry.rows.now groups.entry.count) }
{
    let mut times = 0;
    for k in 0..groups.count {
        if in_row(groups.rows, k, v) {
            times += 1;
        }
    }
    times
}

// The number of the first community that contains v.
fn first_containing(groups: Groups<'_>, v: usize) -> Option<usize>
    requires { groups.count ≤ 512 }
    ensures { MatchOption result (community_number v (rows_of groups.entry.rows.now groups.entry.count) ≡ groups.entry.count) (λ k. community_number v (rows_of groups.entry.rows.now groups.entry.count) ≡ k) }
{
    for k in 0..groups.count {
        if in_row(groups.rows, k, v) {
            return Some(k);
        }
    }
    None
}

// The role of v, from the set of cores and the communities. A core that no community contains gets their count for its group.
pub fn role_in(cores: &Row, groups: Groups<'_>, v: usize) -> Role
    ensures { role_values result ≡ role_values (role_for cores.now groups.entry.rows.now (min groups.entry.count 512) v) }
{
    let count = groups.count.min(512);
    let listed = Groups {
        rows: groups.rows,
        count,
    };
    if sets::has(cores, v) {
        return Role::Core(first_containing(listed, v).unwrap_or(count));
    }
    match count_containing(listed, v) {
        0 => Role::Outlier,
        times => Role::Border(times),
    }
}
