//! The lines of beats and of answers, over writers that fail, are interrupted or take nothing.
use super::same;
use super::writers::{Failing, Slow};
use axi_beats::{
    ArBeat, AwBeat, BBeat, RBeat, Resp, WBeat, ar_line, aw_line, b_line, r_line, w_line,
};
use line_text::{WriteFault, accepted_line, write_text};
use script_text::ScriptFault;
use std::io;
use std::io::{ErrorKind, Write};
use std::test::Fail;
use tl_messages::{ABeat, DBeat, a_line, d_line, d_words};

const PUT: ABeat = ABeat {
    opcode: 0,
    param: 0,
    size: 3,
    source: 5,
    address: 8,
    mask: 0xff,
    payload: 0x1122334455667788,
    corrupt: false,
};

const CORRUPT: ABeat = ABeat {
    size: 0,
    address: 0x1000b,
    mask: 0x08,
    payload: 0xaa000000,
    corrupt: true,
    ..PUT
};

const ACK: DBeat = DBeat {
    opcode: 0,
    param: 0,
    size: 3,
    source: 5,
    denied: false,
    payload: 0,
    corrupt: false,
};

const DENIED: DBeat = DBeat {
    opcode: 1,
    size: 12,
    denied: true,
    corrupt: true,
    ..ACK
};

const AW: AwBeat = AwBeat {
    id: 0,
    address: 0x10008,
    len: 0,
    size: 3,
    burst: 1,
};

const AR: ArBeat = ArBeat {
    id: 15,
    address: 0x11800,
    len: 255,
    size: 3,
    burst: 1,
};

const W: WBeat = WBeat {
    payload: 0x1122334455667788,
    strobes: 0xff,
    last: true,
};

const SHORT_W: WBeat = WBeat {
    payload: 0xaa000000,
    strobes: 0x08,
    last: false,
};

const R: RBeat = RBeat {
    id: 1,
    payload: 0x0505050505050505,
    resp: Resp::Okay,
    last: true,
};

/// Writes lines of each kind.
fn all_lines<T: Write>(writer: &mut T) -> io::Result<()> {
    a_line(0, &PUT, writer)?;
    a_line(7, &CORRUPT, writer)?;
    d_line(0, &ACK, writer)?;
    d_line(7, &DENIED, writer)?;
    d_words(0, &ACK, writer)?;
    writeln!(writer, " at 9")?;
    aw_line(&AW, writer)?;
    w_line(&W, writer)?;
    w_line(&SHORT_W, writer)?;
    ar_line(&AR, writer)?;
    r_line(&R, writer)?;
    for resp in [Resp::Okay, Resp::ExOkay, Resp::SlvErr, Resp::DecErr] {
        b_line(&BBeat { id: 15, resp }, writer)?;
    }
    Ok(())
}

const ALL_LINES: &[u8] = b"A 0 0 0 3 5 00000008 ff 1122334455667788 0
A 7 0 0 0 5 0001000b 08 00000000aa000000 1
D 0 0 0 3 5 0 0000000000000000 0
D 7 1 0 12 5 1 0000000000000000 1
D 0 0 0 3 5 0 0000000000000000 0 at 9
AW 0 00010008 0 3 1
W 1122334455667788 ff 1
W 00000000aa000000 08 0
AR 15 00011800 255 3 1
R 1 0505050505050505 OKAY 1
B 15 OKAY
B 15 EXOKAY
B 15 SLVERR
B 15 DECERR
";

#[test]
fn are_written_or_answer_the_writers_fault(rt: HostRuntime) {
    let mut faults = 0u32;
    for call in 0..1000 {
        let mut writer = Failing::at(rt.alloc(), call);
        let Err(fault) = all_lines(&mut writer) else {
            same(&rt, "all lines", writer.text.as_slice(), ALL_LINES);
            break;
        };
        same(&rt, ("call", call), fault.kind(), ErrorKind::BrokenPipe);
        let is_front = ALL_LINES.starts_with(writer.text.as_slice());
        same(&rt, ("text before call", call), is_front, true);
        faults = faults.saturating_add(1);
    }
    same(&rt, ("faults", faults), faults >= 13 && faults < 1000, true);
}

#[test]
fn a_write_that_is_interrupted_is_made_again(rt: HostRuntime) -> Result<(), Fail> {
    let mut writer = Slow::new(rt.alloc());
    accepted_line(7, &mut writer)?;
    let wanted = b"= accepted 7\n".as_slice();
    same(&rt, "text", writer.text.as_slice(), wanted);
    writer.is_full = true;
    let ending = write_text(b"= idle\n", &mut writer);
    same(&rt, "a full writer", ending, Err(WriteFault));
    Ok(())
}

#[test]
fn faults_as_text(rt: HostRuntime) -> Result<(), Fail> {
    let fault = ScriptFault::Script { line: 5, word: 8 };
    let text = fault.to_string(rt.alloc())?;
    same(&rt, fault, text.as_str(), "script fault: line 5, word 8");
    let text = WriteFault.to_string(rt.alloc())?;
    same(&rt, "a writer's", text.as_str(), "write fault");
    Ok(())
}
