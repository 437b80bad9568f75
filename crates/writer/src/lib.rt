// The writer of site images, for the tool that commissions a site: from the numbers of a site to the bytes that the reader accepts.
//
// The definitions are in specs/Writer. Questions 7 to 10 are put by the reader itself, to a draft: the caller's buffer gets no byte before all questions, and 20,
// have a yes. What the reader and the other calls make of what is written is said by the crate `roundtrips`. No From exists from u32 to usize, so the cast.
#![tactic(auto)]

ghost use Rattle.std.specs.Prelude.{◌≡◌};
ghost use Rattle.writer.specs.Writer.{tables_answer, WriteCall};

use image::{Header, Question, Refusal};
use layout::Parameters;

// Questions 3, 5 and 6, then 7 to 10 by the reader, each to the whole tables before the next: the header of the image that they make, or the first no.
fn ask_tables(x: Parameters, coordinates: &[i32], ends: &[u16]) -> Result<Header, Refusal>
    ensures { result ≡ tables_answer x coordinates.now ends.now }
{
    if !limits::counts_fit(x.n, x.m) {
        return Err(Question::Counts.refused());
    }
    if !limits::thresholds_fit(x.limit, x.p, x.q, x.mu) {
        return Err(Question::Thresholds.refused());
    }
    if !layout::lengths_fit(x, coordinates.len(), ends.len()) {
        return Err(Question::Tables.refused());
    }
    let mut draft = [0u8; layout::IMAGE_MOST];
    let len = layout::put_image(&mut draft, x, coordinates, ends);
    image::open(&draft[0..len])
}

// Writes the image of a site at the front of the buffer, from the coordinates of each handset in turn and the two ends of each edge in turn.
pub fn write(
    x: Parameters,
    coordinates: &[i32],
    ends: &[u16],
    buffer: &mut [u8],
) -> Result<usize, Refusal>
    ensures { WriteCall x coordinates.now ends.now buffer.old result buffer.new }
{
    let asked = ask_tables(x, coordinates, ends);
    let Ok(h) = asked else {
        return Err(refusals::refusal_of(asked));
    };
    let len = h.len as usize;
    if buffer.len() < len {
        return Err(Question::Buffer.refused());
    }
    layout::put_image(buffer, x, coordinates, ends);
    Ok(len)
}
