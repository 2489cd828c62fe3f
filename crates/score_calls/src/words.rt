//! The words of a call: its head, which says what is called, and those behind it.
ghost use Rattle.std.specs.Prelude.{◌≡◌, get_or};
ghost use Rattle.score_calls.specs.CallWords.{kind_of, kinds};
ghost use Rattle.score_calls.specs.declared.words.CallKind.TheVariants as kind;

/// What is called.
#[derive(Clone, Copy)]
pub(crate) enum CallKind {
    /// A beat on channel A: two words more, the address with the lanes that nobody knows above it, and the payload.
    A,
    /// A beat on channel D: a word more, the payload.
    D,
    /// A write address: a word more, the address.
    Aw,
    /// Write data: a word more, the payload.
    W,
    /// A write response.
    B,
    /// A read address: a word more, the address.
    Ar,
    /// Read data: a word more, the payload.
    R,
    /// A beat of which nobody knows a field but the payload.
    Unknown,
    /// What the memory began with: the bytes by eights.
    Fill,
    /// The time of what comes: a word more.
    Time,
    /// AXI4 beats went unseen until no burst was open.
    Drained,
    /// The bridge was reset.
    Reset,
    /// The observation is over.
    End,
    /// A line: its bytes by eights.
    Line,
    /// The set-up is whole.
    Begin,
    /// All is given back but the handle itself.
    Close,
    /// How many bytes the text of what was found last has.
    TextLength,
    /// How many bytes the text of the last fault has.
    FaultLength,
    /// A byte of the text whose length was asked for last; 0 behind its end.
    TextByte,
    /// How many accepted requests have a reply that isn't over.
    Outstanding,
    /// How many bursts are open on the AXI4 port.
    OpenBursts,
    /// How many beats were judged.
    Judged,
    /// How much was found wrong.
    Wrong,
    /// How many bytes replies told.
    Told,
    /// How many of these were compared.
    Compared,
    /// The byte at an address.
    Byte,
    /// Nothing that there is.
    None,
}

/// What is called, by the number that it has.
fn kinds() -> &'static [CallKind]
    ensures { result.now ≡ kinds }
{
    &[
        CallKind::A,
        CallKind::D,
        CallKind::Aw,
        CallKind::W,
        CallKind::B,
        CallKind::Ar,
        CallKind::R,
        CallKind::Unknown,
        CallKind::Fill,
        CallKind::Time,
        CallKind::Drained,
        CallKind::Reset,
        CallKind::End,
        CallKind::Line,
        CallKind::Begin,
        CallKind::Close,
        CallKind::TextLength,
        CallKind::FaultLength,
        CallKind::TextByte,
        CallKind::Outstanding,
        CallKind::OpenBursts,
        CallKind::Judged,
        CallKind::Wrong,
        CallKind::Told,
        CallKind::Compared,
        CallKind::Byte,
    ]
}

/// The kind at a place of a table; none behind its end.
fn kind_at(table: &[CallKind], place: usize) -> CallKind
    ensures { result ≡ get_or table.now place kind.None }
{
    match table.get(place) {
        Some(kind) => *kind,
        None => CallKind::None,
    }
}

/// What a head says is called: by its lowest byte.
pub(crate) fn kind_of(head: u64) -> CallKind
    ensures { result ≡ kind_of head }
{
    let table = kinds();
    kind_at(table, (head % 256) as usize)
}
