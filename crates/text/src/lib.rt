// Text written into a lent buffer, byte after byte. Past the end of the buffer nothing is written and the position goes on all the same, so the same methods measure a
// text and write it. Positions stop at 2^63, which no buffer reaches.
//
// Every contract is the record Writes of specs/Text; runs of writes are joined by the law `then` of proofs/Writing.
// Numbers and words go through methods and not through `write!`: std::fmt says what was written only where it answers Ok, and nothing says that it does.
#![tactic(auto)]

ghost use Rattle.std.specs.Prelude.{◌+◌, ◌*◌, ◌<◌, ◌≡◌, [], ◌∷◌, map};
ghost use Rattle.sets.specs.Bits.{ones_of};
ghost use Rattle.text.specs.Text.{Wrote, Writes, decimal, numbers, elements_of};

// The position at which the count stops.
const LAST: usize = 1 << 63;

// Writes one byte at a position, and answers the position after it. This and `put_short` take a position beside the buffer, which stays in a register: through methods of
// a Text, and with itoa for each short number, a report takes a tenth longer (measured).
fn put_at(buffer: &mut [u8], position: usize, byte: u8) -> usize
    ensures { Wrote buffer.old position (byte ∷ []) buffer.new result }
{
    if position < buffer.len() {
        buffer[position] = byte;
    }
    position.saturating_add(1).min(LAST)
}

// Writes the one, two or three digits of a number below 1,000, with no leading zero.
fn put_short(buffer: &mut [u8], position: usize, n: u64) -> usize
    requires { n < 1000 }
    ensures { Wrote buffer.old position (decimal n) buffer.new result }
{
    let mut next = position;
    if 100 <= n {
        next = put_at(buffer, next, (48 + n / 100) as u8);
    }
    if 10 <= n {
        next = put_at(buffer, next, (48 + n / 10 % 10) as u8);
    }
    put_at(buffer, next, (48 + n % 10) as u8)
}

// A text in a buffer, and where its next byte goes.
#[derive(Drop)]
pub struct Text<'a> {
    pub buffer: &'a mut [u8],
    pub position: usize,
}

impl<'a> Text<'a> {
    // An empty text at the front of the buffer.
    pub fn new(buffer: &'a mut [u8]) -> Text<'a>
        ensures same_reference { result.buffer.ghost_name ≡ buffer.entry.ghost_name }
        ensures bytes { result.buffer.now ≡ buffer.old }
        ensures position { result.position ≡ 0 }
    {
        Text {
            buffer,
            position: 0,
        }
    }

    // Writes one byte.
    pub fn put(&mut self, byte: u8)
        ensures { Writes self.old (byte ∷ []) self.new }
    {
        self.position = put_at(self.buffer, self.position, byte);
    }

    // Writes the bytes of a slice.
    pub fn put_all(&mut self, bytes: &[u8])
        ensures { Writes self.old bytes.now self.new }
    {
        let start = self.position.min(self.buffer.len());
        let room = &mut self.buffer[start..];
        let count = bytes.len().min(room.len());
        // Byte by byte: where the slice was copied whole, the archive needed memmove from outside, beside memcpy and memset.
        for (i, byte) in bytes[..count].iter().enumerate() {
            room[i] = *byte;
        }
        self.position = self.position.saturating_add(bytes.len()).min(LAST);
    }

    // Writes n in decimal, with no leading zero; 0 is one digit.
    pub fn put_decimal(&mut self, n: u64)
        ensures { Writes self.old (decimal n) self.new }
    {
        if n < 1000 {
            self.position = put_short(self.buffer, self.position, n);
        } else {
            let mut digits = itoa::Buffer::new();
            self.put_all(digits.format(n).as_bytes());
        }
    }

    // Writes a space and n in decimal.
    fn put_number(&mut self, n: u64)
        ensures { Writes self.old (32 ∷ decimal n) self.new }
    {
        self.put(b' ');
        self.put_decimal(n);
    }

    // Writes each number of a table after a space; of an empty table nothing.
    pub fn put_numbers(&mut self, table: &[u16])
        ensures { Writes self.old (numbers table.now) self.new }
    {
        self.position = self.position.min(LAST);
        for &number in table {
            self.put_number(u64::from(number));
        }
    }

    // Writes the numbers of a word's set bits, ascending, each after a space; bit 0 has the number `base`.
    fn put_word(&mut self, base: usize, word: u64)
        requires { base < 512 }
        ensures { Writes self.old (numbers (map (λ k. base + k) (ones_of word))) self.new }
    {
        let buffer = &mut *self.buffer;
        let mut position = self.position.min(LAST);
        for bit in sets::set_bits(word) {
            position = put_at(buffer, position, b' ');
            position = put_short(buffer, position, (base + bit) as u64);
        }
        self.position = position;
    }

    // Writes each member below 512 of a set of bits after a space, ascending; a number past the last word is in no set.
    pub fn put_members(&mut self, set: &[u64])
        ensures { Writes self.old (numbers (elements_of set.now)) self.new }
    {
        self.position = self.position.min(LAST);
        let words = &set[..set.len().min(sets::ROW_WORDS)];
        for (j, &word) in words.iter().enumerate() {
            self.put_word(64 * j, word);
        }
    }
}
