//! The lines of `tlbridge run`.
ghost use Rattle.std.specs.Prelude.{◌≡◌};
ghost use Rattle.script_text.specs.Forms.{told_as};
ghost use Rattle.run_script.specs.Run.{byte_line, line_says, mem_command, perform_line};

use line_text::{Words, offer_line};
use script_text::Form;
use world::Step;

/// `do SERIAL BEAT`.
#[inline(always)]
pub(crate) fn perform(words: &Words<'_>) -> Result<Step, u32>
    ensures { result ≡ perform_line words.now }
{
    let serial = words.dec(2, u64::MAX)?;
    let beat = words.short(3)?;
    words.end(3)?;
    Ok(Step::Perform(serial, beat))
}

/// A line with one field, a number to 255: `b ID`, `r ID` or `take CLIENT`.
#[inline(always)]
pub(crate) fn one_byte(words: &Words<'_>) -> Result<u8, u32>
    ensures { result ≡ byte_line words.now }
{
    let byte = words.byte(2)?;
    words.end(2)?;
    Ok(byte)
}

/// `mem ADDRESS`.
#[inline(always)]
pub(crate) fn mem(words: &Words<'_>) -> Result<u32, u32>
    ensures { result ≡ mem_command words.now }
{
    let address = words.address(2)?;
    words.end(2)?;
    Ok(address)
}

/// That a line says a command, or its first wrong word.
pub(crate) fn check(words: &Words<'_>) -> Result<(), u32>
    ensures { result ≡ told_as (λ command. tt) (line_says words.now) }
{
    match Form::named(words.at(1)) {
        Some(Form::Offer) => {
            offer_line(words)?;
        }
        Some(Form::Perform) => {
            perform(words)?;
        }
        Some(Form::AnswerB | Form::AnswerR | Form::Take) => {
            one_byte(words)?;
        }
        Some(Form::Mem) => {
            mem(words)?;
        }
        Some(Form::Pump | Form::Drain | Form::Work) => words.end(1)?,
        _ => return Err(1),
    }
    Ok(())
}
