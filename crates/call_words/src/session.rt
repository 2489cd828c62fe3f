//! What a kind of handle has beside the calls that every handle has.
ghost use Rattle.std.specs.Prelude.{◌≡◌, []};

use script_text::ScriptFault;
use std::alloc::Global;

/// Which call a head says: one that every handle has, or one of the session's own.
#[derive(Clone, Copy)]
pub enum HandleCall {
    /// A line of the set-up: its bytes by eights. Behind the set-up it is a call of the session's own.
    Line,
    /// The set-up is whole.
    Begin,
    /// All is given back but the handle itself.
    Close,
    /// How many bytes the text of what was found last has.
    TextLength,
    /// How many bytes the text of the last fault has.
    FaultLength,
    /// A byte of the text whose length was asked for last; 0 behind its end.
    TextByte,
    /// A call of what runs.
    Own,
}

/// A set-up by lines, what runs once it was begun, and the calls of that.
pub trait Session {
    ghost use Rattle.call_words.specs.Handles.{Session as Rules};

    /// The lines of a set-up.
    type SetUp: Drop;

    /// What runs once the set-up was begun.
    type Run: Drop;

    /// What its calls do.
    ghost rules: { Rules Self.SetUp Self.Run };

    /// Which call a head says.
    fn call_of(head: u64) -> HandleCall
        ensures { result ≡ rules.call_of head };

    /// How many words come behind a head.
    fn words_wanted(head: u64) -> u32
        ensures { result ≡ rules.wanted head };

    /// A set-up of no line.
    fn no_line() -> Self::SetUp
        ensures { result ≡ rules.no_line };

    /// Takes a line of the set-up, without its line feed. Behind a fault nothing more is made of it.
    fn line(set_up: &mut Self::SetUp, alloc: Global, line: &[u8]) -> Result<(), ScriptFault>
        ensures { rules.line set_up.old line.now set_up.new result };

    /// Begins what the set-up says.
    fn begin(set_up: Self::SetUp, alloc: Global) -> Result<Self::Run, ScriptFault>
        ensures { rules.begun set_up result };

    /// Carries out a call of its own, by its head and the words behind it. Where it has a fault it notes why.
    fn call(run: &mut Self::Run, head: u64, words: &[u64], fault: &mut Option<ScriptFault>) -> u64
        ensures { rules.own head words.now run.old run.new result };

    /// Writes the text of what was found last, and tells how many bytes it has.
    fn tell(run: &Self::Run, text: &mut Vec<u8>) -> u64
        requires { text.old.items ≡ [] }
        ensures { rules.text run.now text.new.items result };
}
