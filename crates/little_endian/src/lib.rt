// Numbers in bytes, the lowest byte first: what reads them, and what writes them.
//
// A place may not be there: a read then gives 0, and a write leaves every byte as it was. Callers cite `number_cong` of proofs/Bytes where the same bytes stand
// at two places, `number_slice` where they read from a slice, and proofs/Writing for what is written and for tables of numbers.
#![tactic(auto)]

ghost use Rattle.std.specs.Prelude.{◌≡◌, ℕ};
ghost use Rattle.little_endian.specs.Bytes.{number, stored};

// A number that stands in bytes, the lowest first.
pub trait LittleEndian {
    // How many bytes it has.
    ghost width: { ℕ };

    // The number itself.
    ghost value: { Self → ℕ };

    // The number in the first bytes; 0 where there are too few.
    fn read_first(bytes: &[u8]) -> Self
        ensures { value result ≡ number width bytes.now 0 };
}

impl LittleEndian for u16 {
    ghost width = { 2 };

    ghost value = { λ n. n };

    fn read_first(bytes: &[u8]) -> u16 {
        bytes
            .first_chunk()
            .map_or(0, |first| u16::from_le_bytes(*first))
    }
}

impl LittleEndian for u32 {
    ghost width = { 4 };

    ghost value = { λ n. n };

    fn read_first(bytes: &[u8]) -> u32 {
        bytes
            .first_chunk()
            .map_or(0, |first| u32::from_le_bytes(*first))
    }
}

impl LittleEndian for u64 {
    ghost width = { 8 };

    ghost value = { λ n. n };

    fn read_first(bytes: &[u8]) -> u64 {
        bytes
            .first_chunk()
            .map_or(0, |first| u64::from_le_bytes(*first))
    }
}

// The number in the bytes at a place; 0 where too few stand there.
pub fn read<T: LittleEndian>(s: &[u8], at: usize) -> T
    ensures { T.value result ≡ number T.width s.now at }
{
    T::read_first(s.get(at..).unwrap_or(&[]))
}

// Writes a number in the w bytes at a place, or nothing where fewer stand there. What w bytes do not hold of it is left out.
pub fn write(s: &mut [u8], at: usize, w: usize, v: u64)
    ensures { s.new ≡ stored w s.old at v }
{
    if s.len() < w || s.len() - w < at {
        return;
    }
    let mut rest = v;
    for byte in &mut s[at..at + w] {
        *byte = (rest % 256) as u8;
        rest /= 256;
    }
}
