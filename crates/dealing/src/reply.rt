// A call's reply, accepted or refused, and its place among the 28 that own a phrase.
ghost use Rattle.dealing.specs.Replies.{owner, place, reply_number};
ghost use Rattle.std.specs.Prelude.{◌≡◌};

use crate::outcome::Outcome;
use crate::refusal::Refusal;

/// What a call comes to: accepted with an outcome (docs/FLOOR.md, section 8), or refused (section 11).
pub type Reply = Result<Outcome, Refusal>;

/// How many replies own a phrase: refusals 1 to 14 and 18 to 20, and the eleven outcomes
/// (docs/PAGE.md, section 3).
pub const OWNERS: usize = 28;

// Their numbers, in the sequence of their phrases.
const NUMBERS: [u8; OWNERS] = [
    1, 2, 3, 4, 5, 6, 7, 8, 9, 10, 11, 12, 13, 14, 18, 19, 20, 50, 51, 52, 53, 54, 55, 56, 57, 58,
    59, 60,
];

/// The number that the page shows: 1 to 21 of a refusal, 50 to 60 of an outcome.
pub fn number(reply: Reply) -> u8
    ensures { result ≡ reply_number reply }
{
    match reply {
        Ok(outcome) => outcome.number(),
        Err(refusal) => refusal.number(),
    }
}

/// Which of the 28 phrases is the reply's, counted from 0. None for refusals 15, 16, 17 and 21, which
/// never stand on a page.
pub fn phrase_place(reply: Reply) -> Option<usize>
    ensures { result ≡ place (reply_number reply) }
{
    let n = number(reply);
    NUMBERS.iter().position(|&owner| n == owner)
}

/// The number of the reply that owns the phrase at a place, counted from 0. None from place 28 on.
pub fn owner_number(at: usize) -> Option<u8>
    ensures { result ≡ owner at }
{
    NUMBERS.get(at).copied()
}
