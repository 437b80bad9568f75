// The search for communities: each is what is reachable from its smallest core, by the rows of the similarity relation.
//
// Sets are eight words, and a table has 512 rows of eight words. Everything goes a word at a time, and each core's row is or'ed once. The definitions are
// in specs/Search; callers cite proofs/Communities: with the tables of a network, the rows found are its communities.
#![tactic(auto)]

ghost use Rattle.std.specs.Prelude.{◌+◌, ◌*◌, ◌≤◌, ◌<◌, ◌≡◌, length};
ghost use Rattle.search.specs.ForProofs.{FirstCommon, Joined, JoinedAll, Stored, Collected};
ghost use Rattle.search.specs.Search.{SearchCall};

use sets::{Row, Table};

// The first number in both sets.
fn first_common(a: &Row, b: &Row) -> Option<usize>
    ensures { FirstCommon a.now b.now result }
{
    for j in 0..8 {
        if let Some(k) = sets::set_bits(a[j] & b[j]).next() {
            return Some(j * 64 + k);
        }
    }
    None
}

// Adds row u of the table to the set.
fn join_row(table: &Table, u: usize, set: &mut Row)
    requires { u < 512 }
    ensures { Joined table.now u set.old set.new }
{
    for j in 0..8 {
        set[j] |= table[u * 8 + j];
    }
}

// Adds row base + k of the table to the set, for each set bit k of the word.
fn join_all(table: &Table, word: u64, base: usize, set: &mut Row)
    requires { base + 64 ≤ 512 }
    ensures { JoinedAll table.now word base set.old set.new }
{
    for k in sets::set_bits(word) {
        join_row(table, base + k, set);
    }
}

// Makes the set row k of the table.
fn store_row(rows: &mut Table, k: usize, set: &Row)
    requires { k < 512 }
    ensures { Stored rows.old k set.now rows.new }
{
    // A word at a time: by `copy_from_slice`, tried, the plan of a site of 512 communities takes a fifth longer (measured).
    for j in 0..8 {
        rows[k * 8 + j] = set[j];
    }
}

// The closure of u, a core of `left`: row u, the row of each core left in that row, and so on. Takes u out of `left`, and whatever it comes by, a word
// of cores at a time, so that no row is added twice.
fn collect(table: &Table, left: &mut Row, u: usize) -> Row
    requires { u < 512 }
    ensures { Collected table.now left.old u left.new result }
{
    let mut set = [0; 8];
    join_row(table, u, &mut set);
    sets::unmark(left, u);
    while let Some(w) = first_common(&set, left) {
        let j = w / 64;
        let both = set[j] & left[j];
        left[j] ^= both;
        join_all(table, both, j * 64, &mut set);
    }
    set
}

// Makes the first rows of a table of 512 rows of eight words the closures of its cores, each from the smallest core left, and gives their count. Row k
// is written when search k is over: by then no core up to k is left, so no row is lost that is still to be added. Tables of another size are left alone,
// and the count is 0.
pub fn find_communities(table: &mut [u64], cores: &[u64]) -> usize
    ensures { SearchCall table.old cores.now table.new result }
{
    let Ok(mut left) = Row::try_from(cores) else {
        return 0;
    };
    let Some(table) = table.as_mut_array() else {
        return 0;
    };
    let mut k = 0;
    while let Some(u) = first_common(&left, &left) {
        let set = collect(table, &mut left, u);
        store_row(table, k, &set);
        k += 1;
    }
    k
}
