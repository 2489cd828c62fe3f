//! The lines that say how long a beat waited until it was taken.
ghost use Rattle.std.specs.Prelude.{◌≡◌, ◌<◌};
ghost use Rattle.line_text.specs.Words.{word_at};
ghost use Rattle.score_script.specs.UnknownDigits.{StandsAt};
ghost use Rattle.score_script.specs.WaitLines.{is_wait, port_field, waited_line};

use crate::score::Command;
use line_text::Words;

/// Whether a word is the name of a port: channel A or D of a client, or one of the AXI4 port.
fn is_port(word: &[u8]) -> bool
    ensures { result ≡ port_field word.now }
{
    match word {
        [b'A' | b'D', b'0'..=b'7'] => true,
        [b'A', b'W' | b'R'] => true,
        [b'W' | b'B' | b'R'] => true,
        _ => false,
    }
}

/// Whether a line says how long a beat waited.
pub(crate) fn is_wait(words: &Words<'_>) -> bool
    ensures { result ≡ is_wait words.now }
{
    words.at(1) == b"waited".as_slice()
}

/// That word `n` is the name of a port.
fn port(words: &Words<'_>, n: u32) -> Result<(), u32>
    requires { 0 < n }
    ensures { StandsAt (port_field (word_at words.now n)) n result }
{
    if is_port(words.at(n)) {
        return Ok(());
    }
    Err(n)
}

/// `waited PORT CLOCKS`: nothing of it is kept.
pub(crate) fn waited_line(words: &Words<'_>) -> Result<Command, u32>
    ensures { result ≡ waited_line words.now }
{
    port(words, 2)?;
    let _clocks = words.dec(3, u64::MAX)?;
    words.end(3)?;
    Ok(Command::Waited)
}
