//! The line of a beat that a client offers.
ghost use Rattle.std.specs.Prelude.{◌≡◌};
ghost use Rattle.line_text.specs.OfferLines.{offer_line};

use crate::words::Words;
use tl_messages::ABeat;

/// The client and the beat of `a CLIENT OPCODE PARAM SIZE SOURCE ADDRESS MASK PAYLOAD CORRUPT`, or its first wrong word.
#[inline(always)]
pub fn offer_line(words: &Words<'_>) -> Result<(u8, ABeat), u32>
    ensures { result ≡ offer_line words.now }
{
    let client = words.byte(2)?;
    let opcode = words.byte(3)?;
    let param = words.byte(4)?;
    let size = words.byte(5)?;
    let source = words.byte(6)?;
    let address = words.address(7)?;
    let mask = words.mask(8)?;
    let payload = words.hex(9, u64::MAX)?;
    let corrupt = words.flag(10)?;
    words.end(10)?;
    let beat = ABeat {
        opcode,
        param,
        size,
        source,
        address,
        mask,
        payload,
        corrupt,
    };
    Ok((client, beat))
}
