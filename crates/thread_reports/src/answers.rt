//! What answers and counts tell.
ghost use Rattle.std.specs.Prelude.{◌≡◌, ◌<◌, ◌^◌};
ghost use Rattle.world.specs.World.{leaves_all};

use world::Answer;

/// Whether an answer tells that nothing changed.
pub fn leaves_all(answer: Answer) -> bool
    ensures { result ≡ leaves_all answer }
{
    match answer {
        Answer::NotReady
        | Answer::Exhausted
        | Answer::Refused(_)
        | Answer::NoClient
        | Answer::Idle
        | Answer::NoSuch
        | Answer::Already
        | Answer::Nothing => true,
        Answer::More
        | Answer::Accepted(_)
        | Answer::Sent(_)
        | Answer::Done
        | Answer::B(_)
        | Answer::R(_)
        | Answer::Reply(_) => false,
    }
}

/// A count as a place that a fault can name.
pub fn named_place(count: usize) -> u32
    ensures { count < 2 ^ 32 → result ≡ count }
{
    u32::try_from(count).unwrap_or(u32::MAX)
}
