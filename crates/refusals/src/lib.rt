// A refusal: taken out of the reader's answer, and as the number that C gets.
//
// The definitions are in specs/Refusals and image/specs/Questions. No From exists from usize to u64, nor from u64 to i64, so these are casts.
#![tactic(auto)]

ghost use Rattle.std.specs.Prelude.{◌≡◌};
ghost use Rattle.image.specs.Questions.{refusal_of};
ghost use Rattle.refusals.specs.Refusals.{refusal_code};

use image::{Header, Refusal};

// The refusal of an answer, for the else of a caller's let .. else; number 0 where the image was accepted.
pub fn refusal_of(o: Result<Header, Refusal>) -> Refusal
    ensures { result ≡ refusal_of o }
{
    match o {
        Err(r) => r,
        Ok(_) => Refusal {
            number: 0,
            place: 0,
        },
    }
}

// A refusal's number and place, made negative.
pub fn refusal_code(r: Refusal) -> i64
    ensures { result ≡ refusal_code r }
{
    let code = u64::from(r.number).min(255) + 256 * (r.place as u64).min(4294967295);
    -(code as i64)
}
