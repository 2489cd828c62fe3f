//! The lines that a script of `tlbridge threads` alone has.
ghost use Rattle.std.specs.Prelude.{◌≡◌};
ghost use Rattle.line_text.specs.Fields.{Reads};
ghost use Rattle.threads_script.specs.Asked.{address_line, is_thread, thread_in, word_line};

use line_text::Words;

/// The memory thread of `word N T`, or the first one for `word N`.
pub(crate) fn thread_of(words: &Words<'_>) -> Result<u8, u32>
    ensures { Reads (is_thread words.now) (thread_in words.now) 3 result }
{
    if words.end(2).is_ok() {
        return Ok(0);
    }
    Ok(words.dec(3, 3)? as u8)
}

/// `word N T`, or `word N`: the thread and its word.
pub(crate) fn word_line(words: &Words<'_>) -> Result<(u8, u64), u32>
    ensures { result ≡ word_line words.now }
{
    let word = words.dec(2, u64::MAX)?;
    let thread = thread_of(words)?;
    words.end(3)?;
    Ok((thread, word))
}

/// `mem ADDRESS`.
pub(crate) fn address_line(words: &Words<'_>) -> Result<u32, u32>
    ensures { result ≡ address_line words.now }
{
    let address = words.address(2)?;
    words.end(2)?;
    Ok(address)
}
