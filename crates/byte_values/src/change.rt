//! What requests do to the bytes of a word after they have begun.

use crate::known::KnownBytes;

/// What becomes of one request that may give bytes to a word, or of all of them. It changes only what hasn't ended. A request is named by
/// its number: how many had begun as it began, itself counted.
#[derive(Clone, Copy)]
pub enum Change {
    /// What the request gives has come, or is what its reply shows.
    Gives {
        /// The request's number.
        number: u64,
        /// The lanes to which it gives something, bit k for lane k. To the others it gives nothing: its mask leaves them out, or it isn't
        /// carried out.
        lanes: u8,
        /// What it gives, as far as that is known; it counts only in these lanes.
        known: KnownBytes,
    },
    /// The request takes effect: it is whole, and hasn't failed.
    Sure(u64),
    /// The request has failed: it may leave any bytes, or none.
    Fails(u64),
    /// The request ends, when so many have begun: its number, and how many.
    Ends(u64, u64),
    /// A reset, when so many have begun: each that hasn't ended may have taken effect, and takes none later.
    Resets(u64),
}
