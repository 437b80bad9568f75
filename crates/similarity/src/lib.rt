// The two steps of the similarity test: how many neighbours two handsets have in common, and whether that is enough for the sizes of their neighbourhoods.
//
// A neighbourhood is a set of eight words, one bit a handset. The definitions are in specs/Similarity; both functions are total.
#![tactic(auto)]

ghost use Rattle.std.specs.Prelude.{◌≡◌};
ghost use Rattle.community.specs.Network.{meets_epsilon};
ghost use Rattle.similarity.specs.Similarity.{in_both};

// How many handsets are in both sets: the ones of the and of two words, summed over eight. A word that is not there is empty.
pub fn common(a: &[u64], b: &[u64]) -> u32
    ensures { result ≡ in_both a.now b.now }
{
    let mut n = 0;
    for (x, y) in a.iter().zip(b).take(8) {
        n += (x & y).count_ones();
    }
    n
}

// Whether c common neighbours are enough for neighbourhoods of the sizes a and b: c / √(a b) ≥ p / q, in whole numbers. No product of four numbers of 16 bits
// wraps.
pub fn meets_epsilon(c: u16, a: u16, b: u16, p: u16, q: u16) -> bool
    ensures { result ≡ meets_epsilon p q c a b }
{
    let left = (p as u64) * (p as u64) * ((a as u64) * (b as u64));
    let right = (c as u64) * (c as u64) * ((q as u64) * (q as u64));
    left <= right
}
