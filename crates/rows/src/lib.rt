// What is read off communities that stand in a table as rows of bits: a row of eight words for each community, one bit a handset.
//
// More than 512 rows count as 512. The definitions are in specs/Rows; callers cite proofs/Rows and proofs/Listing. No From exists from u32 to usize, so the
// cast.
#![tactic(auto)]

ghost use Rattle.std.specs.Prelude.{◌≡◌, ◌≤◌, ◌<◌, min, length};
ghost use Rattle.sets.specs.Bits.{Words};
ghost use Rattle.sets.specs.Rows.{table_words};
ghost use Rattle.rows.specs.Rows.{rows_of, row_in, row_words, counts_of, first_met, first_meeting, MembersFound};
ghost use Rattle.rows.specs.ForProofs.{RowAdded, overlaps};

use sets::{Row, Table};

// The counts of a plan.
#[derive(Clone, Copy)]
pub struct Counts {
    pub groups: usize,
    pub memberships: usize,
}

// Communities: the first `count` rows of a table.
#[derive(Clone, Copy)]
pub struct Groups<'a> {
    pub rows: &'a Table,
    pub count: usize,
}

impl<'a> Groups<'a> {
    // Row k of the table: a slice of it, not a copy. Empty from 512 on.
    pub fn row(self, k: usize) -> &'a [u64]
        ensures words { result.now ≡ row_words self.entry.rows.now k }
        ensures table { length self.entry.rows.now ≡ table_words }
    {
        let first = k.min(512) * 8;
        let past = k.min(511) * 8 + 8;
        let rows = self.rows;
        &rows[first..past]
    }

    // How many members row k of the table has, the ones of its words; 0 from 512 on.
    pub fn size(self, k: usize) -> u32
        ensures { result ≡ length (row_in self.entry.rows.now k) }
    {
        let row = self.row(k);
        let mut n = 0;
        for word in row {
            n += word.count_ones();
        }
        n
    }

    // The counts of a plan of these communities.
    pub fn counts(self) -> Counts
        ensures { result ≡ counts_of (rows_of self.entry.rows.now (min self.entry.count 512)) }
    {
        let groups = self.count.min(512);
        let mut memberships = 0;
        for k in 0..groups {
            memberships += self.size(k) as usize;
        }
        Counts {
            groups,
            memberships,
        }
    }

    // Finds the handsets in at least one community, and those in at least two; the sets that are lent get these.
    pub fn find_members(self, once: &mut Row, twice: &mut Row)
        ensures { MembersFound (rows_of self.entry.rows.now (min self.entry.count 512)) once.new twice.new }
    {
        *once = [0; 8];
        *twice = [0; 8];
        for k in 0..self.count.min(512) {
            add_row(self.rows, k, once, twice);
        }
    }

    // The number of the first community that has a member in the set.
    pub fn first_meeting(self, set: &Row) -> Option<usize>
        ensures { result ≡ first_met set.now (rows_of self.entry.rows.now (min self.entry.count 512)) }
    {
        for k in 0..self.count.min(512) {
            if overlaps(self.row(k), set) {
                return Some(k);
            }
        }
        None
    }
}

// The number of the first of the first `count` rows that has a member in the set, or their count where none has. Unlike `Groups::first_meeting`, it always
// answers a number.
pub fn first_meeting(rows: &Table, count: usize, set: &Row) -> usize
    ensures { result ≡ first_meeting set.now (rows_of rows.now (min count 512)) }
{
    Groups { rows, count }
        .first_meeting(set)
        .unwrap_or(count.min(512))
}

// Adds row k to the set `once`, and those of it that were in `once` already to the set `twice`.
fn add_row(rows: &Table, k: usize, once: &mut Row, twice: &mut Row)
    requires { k < 512 }
    ensures { RowAdded rows.now k once.old twice.old once.new twice.new }
{
    for j in 0..8 {
        let word = rows[k * 8 + j];
        twice[j] |= once[j] & word;
        once[j] |= word;
    }
}

// Whether two sets have a handset in common.
fn overlaps(a: &[u64], b: &[u64]) -> bool
    ensures told { result ≡ overlaps a.now b.now }
    ensures fits { Words a.now }
{
    a.iter().zip(b).any(|(x, y)| x & y != 0)
}
