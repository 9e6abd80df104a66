// Refusals made, and answers told: document 01's number returned, its place numbers written to a lent buffer.
#![tactic(auto)]

ghost use Rattle.std.specs.Prelude.{◌≡◌};
ghost use Rattle.rules.specs.Answers.{reply, number_of, places_of, refused_reply, reply_of};
ghost use Rattle.answers.specs.Told.{Told};

use rules::{Cause, Places, Refusal};
use wire::put_places;

// A cause with the two place numbers that document 01 names; the rest are 0.
pub fn refusal(cause: Cause, first: u32, second: u32) -> Refusal
    ensures { refused_reply result ≡ reply (number_of cause) first second 0 }
{
    finding(cause, first, second, 0)
}

// A cause with all three.
pub fn finding(cause: Cause, first: u32, second: u32, third: u32) -> Refusal
    ensures { refused_reply result ≡ reply (number_of cause) first second third }
{
    Refusal {
        cause,
        places: Places(first, second, third),
    }
}

// Functions by name, as docs/CLAIMS.md has them, here and below: a From would be no plainer.
pub fn number_of(cause: Cause) -> u32
    ensures { result ≡ number_of cause }
{
    cause as u32
}

pub fn number(answer: Result<Places, Refusal>) -> u32
    ensures { result ≡ (reply_of answer).number }
{
    match answer {
        Ok(_) => 0,
        Err(refusal) => number_of(refusal.cause),
    }
}

pub fn places(answer: Result<Places, Refusal>) -> Places
    ensures { places_of result ≡ (reply_of answer).places }
{
    match answer {
        Ok(places) => places,
        Err(refusal) => refusal.places,
    }
}

// Returns the number, and writes the place numbers.
pub fn tell(answer: Result<Places, Refusal>, out: &mut [u8]) -> u32
    ensures { Told out.old out.new result (reply_of answer) }
{
    let Places(a, b, c) = places(answer);
    put_places(out, a, b, c);
    number(answer)
}
