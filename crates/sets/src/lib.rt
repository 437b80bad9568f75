// Sets of numbers as bits of 64-bit words: one bit set, cleared or looked at. A number past the last word is in no set. And the
// set bits of a word one after the other, and how often each number stands in a list.
//
// The specs are what every crate above counts by: tests below a bound, bits, renumberings. Their laws are in proofs/.
#![tactic(auto)]

ghost use Rattle.std.specs.Prelude.{◌≡◌, min, eqb};
ghost use Rattle.std.specs.Iterator.{YieldsFirst, item_count};
ghost use Rattle.sets.specs.Bits.{bit_at, with_bit, without_bit, ones_of};
ghost use Rattle.sets.specs.Entries.{EntriesCounted};

// How many words a set of handsets has, one bit a handset, and a table of 512 such sets, its rows.
pub const ROW_WORDS: usize = 8;

pub const TABLE_WORDS: usize = 4096;

// A set of handsets, and a table of 512 of them.
pub type Row = [u64; ROW_WORDS];

pub type Table = [u64; TABLE_WORDS];

// Adds i to the set.
pub fn mark(words: &mut [u64], i: usize)
    ensures { words.new ≡ with_bit words.old i }
{
    // Not by `get_mut`: no clause says what a write through it leaves in a slice, so no proof closes. The same in `unmark`.
    if i / 64 < words.len() {
        words[i / 64] |= 1 << (i % 64);
    }
}

// Takes i out of the set.
pub fn unmark(words: &mut [u64], i: usize)
    ensures { words.new ≡ without_bit words.old i }
{
    if i / 64 < words.len() {
        words[i / 64] &= !(1 << (i % 64));
    }
}

// Whether i is in the set.
pub fn has(words: &[u64], i: usize) -> bool
    ensures { result ≡ eqb (bit_at words.now i) 1 }
{
    words
        .get(i / 64)
        .is_some_and(|word| *word >> (i % 64) & 1 == 1)
}

// The numbers of a word's set bits, ascending. The word is what is left of it: each step takes its lowest set bit.
#[derive(Clone, Copy)]
pub struct SetBits {
    pub word: u64,
}

// The numbers of the set bits of a word, ascending.
pub fn set_bits(word: u64) -> SetBits
    ensures { result.word ≡ word }
{
    SetBits { word }
}

impl Iterator for SetBits {
    type Item = usize;

    ghost next_gives = { YieldsFirst (λ s. ones_of s.word) };

    ghost remaining = { item_count (λ s. ones_of s.word) };

    fn next(&mut self) -> Option<usize> {
        if self.word == 0 {
            return None;
        }
        let lowest = self.word.trailing_zeros() as usize;
        self.word &= self.word - 1;
        Some(lowest)
    }
}

// The numbers of handsets are below this one.
const HANDSETS: u16 = 512;

// Counts how often each number below 512 stands in the list; the table that is lent gets the counts. It looks at no more than 65,535 entries, so that each
// count fits.
pub fn count_entries(list: &[u16], table: &mut [u16; 512])
    ensures { EntriesCounted list.now table.new }
{
    *table = [0; 512];
    for v in list.iter().take(65535) {
        if *v < HANDSETS {
            table[*v as usize] += 1;
        }
    }
}
