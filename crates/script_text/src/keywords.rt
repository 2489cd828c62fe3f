//! What a line of a script is, by its first word.
ghost use Rattle.std.specs.Prelude.{◌≡◌};
ghost use Rattle.script_text.specs.Forms.{form_of};

/// The form of a line (this project's profile).
#[derive(Clone, Copy, Debug, PartialEq, Eq)]
pub enum Form {
    /// `config`: the limits of the bridge.
    Config,
    /// `region`: TileLink pages that lead to AXI pages.
    Region,
    /// `page`: pages of the memory.
    Page,
    /// `bad`: a bad word of the memory.
    BadWord,
    /// `a`: a client offers a beat.
    Offer,
    /// `pump`: the bridge sends a burst.
    Pump,
    /// `do`: the memory performs a beat.
    Perform,
    /// `b`: the memory answers a write.
    AnswerB,
    /// `r`: the memory answers a read.
    AnswerR,
    /// `take`: a client takes a reply.
    Take,
    /// `drain`: all that can happen happens.
    Drain,
    /// `mem`: a byte of the memory.
    Mem,
    /// `work`: how much is left to do.
    Work,
    /// `free`: a source is free again.
    Free,
    /// `word`: a choice of bridge and memory.
    Word,
}

impl Form {
    /// The form of a line that begins with this word.
    #[inline(always)]
    pub fn named(word: &[u8]) -> Option<Form>
        ensures { result ≡ form_of word.now }
    {
        match word {
            b"config" => Some(Form::Config),
            b"region" => Some(Form::Region),
            b"page" => Some(Form::Page),
            b"bad" => Some(Form::BadWord),
            b"a" => Some(Form::Offer),
            b"pump" => Some(Form::Pump),
            b"do" => Some(Form::Perform),
            b"b" => Some(Form::AnswerB),
            b"r" => Some(Form::AnswerR),
            b"take" => Some(Form::Take),
            b"drain" => Some(Form::Drain),
            b"mem" => Some(Form::Mem),
            b"work" => Some(Form::Work),
            b"free" => Some(Form::Free),
            b"word" => Some(Form::Word),
            _ => None,
        }
    }
}
