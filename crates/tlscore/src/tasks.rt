//! What the words of the command line ask for.
ghost use Rattle.std.specs.Prelude.{◌≡◌, map, option_and_then, option_map, string_bytes};
ghost use Rattle.tlscore.specs.Words.{task_of};

/// What the program is asked to do.
#[derive(Clone, Copy, Debug, PartialEq, Eq)]
pub(crate) enum Task {
    /// Judge the input.
    Judge,
    /// Say which version it is.
    Version,
}

/// What the words ask for, if anything. The first is the program's name; words that couldn't be read ask for nothing.
pub(crate) fn task_of(words: Option<Vec<String>>) -> Option<Task>
    ensures { result ≡ option_and_then task_of (option_map (λ given. map string_bytes given.items) words) }
{
    let words = words?;
    match words.as_slice() {
        [] | [_] => Some(Task::Judge),
        [_, word] if word.as_str() == "--version" => Some(Task::Version),
        _ => None,
    }
}
