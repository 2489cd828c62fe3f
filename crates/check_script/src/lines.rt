//! The lines of `tlbridge check`.
ghost use Rattle.std.specs.Prelude.{◌≡◌};
ghost use Rattle.check_script.specs.Check.{check_kind, free_line};

use line_text::{Words, offer_line};
use script_text::Form;
use tl_messages::ABeat;

/// A command.
#[derive(Clone, Copy)]
pub(crate) enum CheckCommand {
    /// A client offers a beat.
    Offer(u8, ABeat),
    /// A client's source is free again.
    Free(u8, u8),
}

/// `free CLIENT SOURCE`.
fn free_line(words: &Words<'_>) -> Result<CheckCommand, u32>
    ensures { result ≡ free_line words.now }
{
    let client = words.byte(2)?;
    let source = words.byte(3)?;
    words.end(3)?;
    Ok(CheckCommand::Free(client, source))
}

/// What a command's line says, or its first wrong word.
pub(crate) fn check_command(words: &Words<'_>) -> Result<CheckCommand, u32>
    ensures { result ≡ check_kind.command_of words.now }
{
    match Form::named(words.at(1)) {
        Some(Form::Offer) => {
            let (client, beat) = offer_line(words)?;
            Ok(CheckCommand::Offer(client, beat))
        }
        Some(Form::Free) => free_line(words),
        _ => Err(1),
    }
}
