//! The lines of what has no answer when an observation is over.
ghost use Rattle.std.specs.Prelude.{◌≡◌, ◌++◌, OnOk, slice_get};
ghost use Rattle.std.specs.Io.KnownBytes.{Appends};
ghost use Rattle.score_script.specs.FindingTexts.{WritesText};
ghost use Rattle.score_script.specs.UnansweredTexts.{all_data_text, all_owed_text, burst_text, burst_words, bursts_text, data_text, data_words, ids_open, message_text, message_words, owed_text, port_text, replies_text, reply_text, reply_words, side_name, unanswered_code, unanswered_text};
ghost use Rattle.scoreboard.specs.InsideBoards.{board_of};

use crate::findings::{Line, line_end};
use line_text::WriteFault;
use scoreboard::Scoreboard;
use std::io::Write;

/// A side of the AXI4 port.
#[derive(Clone, Copy)]
pub(crate) enum Side {
    /// Writes.
    Write,
    /// Reads.
    Read,
}

/// What a client may leave open.
#[derive(Clone, Copy)]
pub(crate) enum Owed {
    /// The replies that are due to it.
    Replies,
    /// The rest of the message that it has begun.
    Message,
}

impl Side {
    /// Its name in a line.
    fn name(self) -> &'static str
        ensures { result.now ≡ side_name self }
    {
        match self {
            Side::Write => "write",
            Side::Read => "read",
        }
    }
}

/// Writes that a reply is due, by the number of the line at which the observation is over.
fn reply_words<W: Write>(
    number: u32,
    client: u8,
    source: u8,
    writer: &mut W,
) -> Result<(), WriteFault>
    ensures { OnOk result (Appends (W.contents writer.old) (W.contents writer.new) (reply_words number client source)) }
{
    Ok(write!(
        writer,
        "= wrong {number} reply 9 UNANSWERED client {client} source {source}"
    )?)
}

/// Writes the line of a reply that is due.
fn reply_line<W: Write>(
    line: &Line,
    client: u8,
    source: u8,
    writer: &mut W,
) -> Result<(), WriteFault>
    ensures { OnOk result (Appends (W.contents writer.old) (W.contents writer.new) (reply_text line.now client source)) }
{
    reply_words(line.number, client, source, writer)?;
    line_end(line.time, writer)
}

/// Writes that a burst is open, by the number of the line at which the observation is over.
fn burst_words<W: Write>(number: u32, side: Side, id: u8, writer: &mut W) -> Result<(), WriteFault>
    ensures { OnOk result (Appends (W.contents writer.old) (W.contents writer.new) (burst_words number side id)) }
{
    let name = side.name();
    Ok(write!(writer, "= wrong {number} axi 14 UNANSWERED {name} {id}")?)
}

/// Writes the line of an open burst.
fn burst_line<W: Write>(line: &Line, side: Side, id: u8, writer: &mut W) -> Result<(), WriteFault>
    ensures { OnOk result (Appends (W.contents writer.old) (W.contents writer.new) (burst_text line.now side id)) }
{
    burst_words(line.number, side, id, writer)?;
    line_end(line.time, writer)
}

/// Writes the lines of the replies that are due to a client. The answer is whether there was any.
fn replies_lines<W: Write>(
    line: &Line,
    board: &Scoreboard,
    client: u8,
    writer: &mut W,
) -> Result<bool, WriteFault>
    ensures { WritesText (replies_text line.now (board_of board.now) client) (W.contents writer.old) (W.contents writer.new) result }
{
    let mut wrote = false;
    for place in 0..usize::from(board.outstanding()) {
        if let Some(source) = board.source_due(client, place) {
            reply_line(line, client, source, writer)?;
            wrote = true;
        }
    }
    Ok(wrote)
}

/// The ID of an open burst of a side by its place, the oldest first.
fn id_open(board: &Scoreboard, side: Side, place: usize) -> Option<u8>
    ensures { result ≡ slice_get (ids_open side (board_of board.now).axi) place }
{
    match side {
        Side::Write => board.open_write(place),
        Side::Read => board.open_read(place),
    }
}

/// Writes the lines of the open bursts of a side. The answer is whether there was any.
fn bursts_lines<W: Write>(
    line: &Line,
    board: &Scoreboard,
    side: Side,
    writer: &mut W,
) -> Result<bool, WriteFault>
    ensures { WritesText (bursts_text line.now (board_of board.now) side) (W.contents writer.old) (W.contents writer.new) result }
{
    let mut wrote = false;
    for place in 0..board.open_bursts() {
        if let Some(id) = id_open(board, side, place) {
            burst_line(line, side, id, writer)?;
            wrote = true;
        }
    }
    Ok(wrote)
}

/// Writes that data of a write came, and no address, by the number of the line at which the observation is over.
fn data_words<W: Write>(number: u32, writer: &mut W) -> Result<(), WriteFault>
    ensures { OnOk result (Appends (W.contents writer.old) (W.contents writer.new) (data_words number)) }
{
    Ok(write!(writer, "= wrong {number} axi 14 UNANSWERED data")?)
}

/// Writes the line of data of a write whose address didn't come.
fn data_line<W: Write>(line: &Line, writer: &mut W) -> Result<(), WriteFault>
    ensures { OnOk result (Appends (W.contents writer.old) (W.contents writer.new) (data_text line.now)) }
{
    data_words(line.number, writer)?;
    line_end(line.time, writer)
}

/// Writes a line for each write of which there are data alone. The answer is whether there was any.
fn data_lines<W: Write>(line: &Line, board: &Scoreboard, writer: &mut W) -> Result<bool, WriteFault>
    ensures { WritesText (all_data_text line.now (board_of board.now)) (W.contents writer.old) (W.contents writer.new) result }
{
    let mut wrote = false;
    for _write in 0..board.writes_without_address() {
        data_line(line, writer)?;
        wrote = true;
    }
    Ok(wrote)
}

/// Writes that a message isn't whole, by the number of the line at which the observation is over.
fn message_words<W: Write>(
    number: u32,
    client: u8,
    source: u8,
    writer: &mut W,
) -> Result<(), WriteFault>
    ensures { OnOk result (Appends (W.contents writer.old) (W.contents writer.new) (message_words number client source)) }
{
    Ok(write!(
        writer,
        "= wrong {number} request 18 UNFINISHED client {client} source {source}"
    )?)
}

/// Writes the line of the message that a client has begun and that isn't whole, by its source, if there is one. The answer is
/// whether there was one.
fn message_line<W: Write>(
    line: &Line,
    client: u8,
    source: Option<u8>,
    writer: &mut W,
) -> Result<bool, WriteFault>
    ensures { WritesText (message_text line.now client source) (W.contents writer.old) (W.contents writer.new) result }
{
    let Some(source) = source else {
        return Ok(false);
    };
    message_words(line.number, client, source, writer)?;
    line_end(line.time, writer)?;
    Ok(true)
}

/// Writes the lines of what a client leaves open. The answer is whether there was any.
fn owed_lines<W: Write>(
    owed: Owed,
    line: &Line,
    board: &Scoreboard,
    client: u8,
    writer: &mut W,
) -> Result<bool, WriteFault>
    ensures { WritesText (owed_text owed line.now (board_of board.now) client) (W.contents writer.old) (W.contents writer.new) result }
{
    match owed {
        Owed::Replies => replies_lines(line, board, client, writer),
        Owed::Message => message_line(line, client, board.source_begun(client), writer),
    }
}

/// Writes the lines of what any client leaves open. The answer is whether there was any.
fn all_owed_lines<W: Write>(
    owed: Owed,
    line: &Line,
    board: &Scoreboard,
    writer: &mut W,
) -> Result<bool, WriteFault>
    ensures { WritesText (all_owed_text owed line.now (board_of board.now)) (W.contents writer.old) (W.contents writer.new) result }
{
    let mut wrote = false;
    for client in 0..board.clients() {
        wrote |= owed_lines(owed, line, board, client, writer)?;
    }
    Ok(wrote)
}

/// Writes the lines of what has no answer on the AXI4 port. The answer is whether there was any.
fn port_lines<W: Write>(line: &Line, board: &Scoreboard, writer: &mut W) -> Result<bool, WriteFault>
    ensures { WritesText (port_text line.now (board_of board.now)) (W.contents writer.old) (W.contents writer.new) result }
{
    let writes = bursts_lines(line, board, Side::Write, writer)?;
    let reads = bursts_lines(line, board, Side::Read, writer)?;
    let data = data_lines(line, board, writer)?;
    Ok(writes | (reads | data))
}

/// What has no answer where the observation is over, as the number of the first of its lines: 0 where all has.
pub(crate) fn unanswered_code(board: &Scoreboard) -> u32
    ensures { result ≡ unanswered_code (board_of board.now) }
{
    if board.outstanding() > 0 {
        return 209;
    }
    if board.open_bursts() > 0 || board.writes_without_address() > 0 {
        return 314;
    }
    if board.messages_begun() > 0 {
        return 118;
    }
    0
}

/// Writes a line for each reply that is due, each open burst, each write of which there are data alone, and each message that isn't
/// whole, by the line at which the observation is over. The answer is whether there was any.
pub(crate) fn unanswered_lines<W: Write>(
    line: &Line,
    board: &Scoreboard,
    writer: &mut W,
) -> Result<bool, WriteFault>
    ensures { WritesText (unanswered_text line.now (board_of board.now)) (W.contents writer.old) (W.contents writer.new) result }
{
    let replies = all_owed_lines(Owed::Replies, line, board, writer)?;
    let port = port_lines(line, board, writer)?;
    let messages = all_owed_lines(Owed::Message, line, board, writer)?;
    Ok(replies | (port | messages))
}
