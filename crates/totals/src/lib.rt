// How many handsets have each role, from the groups as rows of bits and the set of cores.
//
// The handsets in one row or more, and in two or more, are found first; the roles are then counted a word at a time, as ones. The definitions are in
// specs/Totals. No From exists from u32 to usize, so these are casts.
#![tactic(auto)]

ghost use Rattle.std.specs.Prelude.{◌<◌, min, ◌≡◌};
ghost use Rattle.totals.specs.Totals.{RolesCounted};
ghost use Rattle.totals.specs.ForProofs.{BitsBelow, with_words, TotalsAtMost, WordsCounted};

use rows::Groups;
use sets::Row;

// The handsets of a site: cores, borders, outliers; and of the borders those in two groups or more.
#[derive(Clone, Copy, Default)]
pub struct Totals {
    pub cores: usize,
    pub borders: usize,
    pub outliers: usize,
    pub multiple: usize,
}

// The word with the handsets below n of the 64 from 64 j on.
fn word_below(n: usize, j: usize) -> u64
    requires { j < 8 }
    ensures { BitsBelow n j result }
{
    let below = n.saturating_sub(j * 64);
    if below < 64 {
        (1 << below) - 1
    } else {
        u64::MAX
    }
}

impl Totals {
    // Adds a word of handsets, by the words of those in each role.
    fn add_word(&mut self, cores: u64, borders: u64, outliers: u64, multiple: u64)
        requires { TotalsAtMost self.old 512 }
        ensures { self.new ≡ with_words self.old cores borders outliers multiple }
    {
        self.cores += cores.count_ones() as usize;
        self.borders += borders.count_ones() as usize;
        self.outliers += outliers.count_ones() as usize;
        self.multiple += multiple.count_ones() as usize;
    }
}

// Counts the roles of the handsets below n, by the sets of those in one group or more and in two or more, and the set of cores; the set that is lent gets
// the outliers. A core is neither border nor outlier.
fn add_words(once: &Row, twice: &Row, cores: &Row, n: usize, outliers: &mut Row) -> Totals
    ensures { WordsCounted once.now twice.now cores.now n result outliers.new }
{
    let mut totals = Totals::default();
    for j in 0..8 {
        let all = word_below(n, j);
        let core = all & cores[j];
        let other = all ^ core;
        let border = other & once[j];
        let outlier = other ^ border;
        outliers[j] = outlier;
        totals.add_word(core, border, outlier, border & twice[j]);
    }
    totals
}

// Counts the roles of the handsets below n, by the groups and a set of cores; the set that is lent gets the outliers. It looks at no more than
// 512 handsets and 512 rows; a site has no more.
pub fn count_roles(groups: Groups<'_>, cores: &Row, n: usize, outliers: &mut Row) -> Totals
    ensures { RolesCounted cores.now groups.entry.rows.now (min groups.entry.count 512) n result outliers.new }
{
    let mut once = [0; 8];
    let mut twice = [0; 8];
    groups.find_members(&mut once, &mut twice);
    add_words(&once, &twice, cores, n, outliers)
}
