// Reads an image and prints its report, or its refusal. One byte more than an image may have is read, so that a longer input is recognised.
#![tactic(auto)]

ghost use Rattle.std.specs.Prelude.{◌≤◌, length, IfOk};

use std::io;
use std::io::Read;

pub fn print_report(rt: &impl Print, input: &mut impl Read) -> io::Result<()> {
    let mut image = [0u8; 65537];
    let count = read_full(input, &mut image)?;
    let mut text = [0u8; 65536];
    let length = reporting::program_text(&image[..count], &mut text);
    if length <= 65536 {
        rt.write_all(&text[..length])?;
    }
    Ok(())
}

// Fills the buffer as far as the input goes, and answers how many bytes that were. Each read but the last gives a byte or more.
fn read_full(input: &mut impl Read, buffer: &mut [u8]) -> io::Result<usize>
    ensures { IfOk result (λ n. n ≤ length buffer.new) }
{
    let mut filled = 0;
    for _ in 0..buffer.len() {
        let count = input.read(&mut buffer[filled..])?;
        if count == 0 {
            break;
        }
        filled += count;
    }
    Ok(filled)
}
