//! The text of a report.
ghost use Rattle.std.specs.Prelude.{◌≤◌, List, flat_map, length, OnOk};
ghost use Rattle.std.specs.Io.KnownBytes.{Appends};
ghost use Rattle.std.specs.List.{range_with_len};
ghost use Rattle.tl_messages.specs.declared.ABeat.{ABeat};
ghost use Rattle.line_text.specs.Traces.{mem_text};
ghost use Rattle.world_run.specs.Runs.{HandedReply};
ghost use Rattle.setups.specs.Setups.{SetupLists};
ghost use Rattle.world.specs.World.{WorldState, byte_of, opening_world};
ghost use Rattle.world.specs.declared.Step.{Step};
ghost use Rattle.thread_reports.specs.Reports.{AreReceiptsOf, IsReport};
ghost use Rattle.threads_script.specs.ReportTexts.{AreReceived, receipt_text, received_text, report_text};

use line_text::{WriteFault, client_line, mem_line, ok_line, reply_line, reply_lines};
use std::io::Write;
use thread_reports::{Receipts, Report};
use world::World;

/// Writes the replies that a client received.
fn receipt_lines<W: Write>(
    client: u8,
    receipts: &Receipts,
    writer: &mut W,
) -> Result<(), WriteFault>
    requires { (replies : List HandedReply) × AreReceiptsOf receipts.now replies }
    ensures { (replies : List HandedReply) → AreReceiptsOf receipts.now replies → OnOk result (Appends (W.contents writer.old) (W.contents writer.new) (flat_map (receipt_text client) replies)) }
{
    let mut rest = receipts.beats.as_slice();
    for head in receipts.heads.as_slice() {
        let (number, count) = *head;
        let (beats, after) = rest.split_at(usize::from(count));
        reply_line(number, writer)?;
        reply_lines(client, beats, writer)?;
        rest = after;
    }
    Ok(())
}

/// Writes what each client received.
fn received_lines<W: Write>(receipts: &[Receipts], writer: &mut W) -> Result<(), WriteFault>
    requires few { length receipts.now ≤ 8 }
    requires received { (start : WorldState) × ((steps : List Step) × AreReceived start steps receipts.now) }
    ensures { (start : WorldState) (steps : List Step) → AreReceived start steps receipts.now → OnOk result (Appends (W.contents writer.old) (W.contents writer.new) (flat_map (received_text start steps) (range_with_len 0 (length receipts.now)))) }
{
    for client in 0..receipts.len() {
        let number = client as u8;
        client_line(number, writer)?;
        receipt_lines(number, &receipts[client], writer)?;
    }
    Ok(())
}

/// Writes the bytes at some addresses.
fn byte_lines<W: Write>(world: &World, addresses: &[u32], writer: &mut W) -> Result<(), WriteFault>
    ensures { OnOk result (Appends (W.contents writer.old) (W.contents writer.new) (flat_map (λ address. mem_text (byte_of world.now address)) addresses.now)) }
{
    for address in addresses {
        mem_line(world.byte(*address), writer)?;
    }
    Ok(())
}

/// Writes the text of a report: `= ok`, what each client received, and the bytes at these addresses.
pub fn report_lines<W: Write>(
    report: &Report,
    addresses: &[u32],
    writer: &mut W,
) -> Result<(), WriteFault>
    requires { (setup : SetupLists) × ((scripts : List (List ABeat)) × IsReport setup scripts report.now.steps.items report.now.receipts.items report.now.world) }
    ensures { (setup : SetupLists) (scripts : List (List ABeat)) → IsReport setup scripts report.now.steps.items report.now.receipts.items report.now.world → OnOk result (Appends (W.contents writer.old) (W.contents writer.new) (report_text (opening_world setup) report.now.steps.items report.now.world setup.config.clients addresses.now)) }
{
    ok_line(writer)?;
    received_lines(report.receipts.as_slice(), writer)?;
    byte_lines(&report.world, addresses, writer)
}
