//! An observation as text, and a writer and a reader that fail.
use super::same;
use score_script::score_text;
use script_text::ScriptFault;
use std::io;
use std::io::{ErrorKind, Read, Write};

const INPUT: &str = "config 2 4 16 2 16 12 hh\nW 0 ff 1\n";

const WRONG: &str = "= wrong 2 axi 6 W_WITHOUT_AW\n";

#[test]
fn an_input(rt: HostRuntime) {
    let mut output = Vec::new(rt.alloc());
    let ending = score_text(rt.alloc(), &mut INPUT.as_bytes(), &mut output);
    same(&rt, "something is wrong", ending, Ok(true));
    let wanted =
        "= wrong 2 axi 6 W_WITHOUT_AW\n= judged 1 wrong 1 outstanding 0 open 0 compared 0 of 0\n";
    same(&rt, "text", output.as_slice(), wanted.as_bytes());
}

/// A reader that gives an input in one piece, and is interrupted behind it.
#[derive(Drop)]
struct Cut<'a> {
    left: &'a [u8],
}

impl Read for Cut<'_> {
    fn read(&mut self, buf: &mut [u8]) -> io::Result<usize> {
        if self.left.is_empty() {
            return Err(io::Error::from(ErrorKind::Interrupted));
        }
        self.left.read(buf)
    }
}

/// A writer that takes nothing.
#[derive(Drop)]
struct Full;

impl Write for Full {
    fn write(&mut self, _buf: &[u8]) -> io::Result<usize> {
        Err(io::Error::from(ErrorKind::StorageFull))
    }

    fn flush(&mut self) -> io::Result<()> {
        Ok(())
    }
}

#[test]
fn a_read_and_a_write_that_fail(rt: HostRuntime) {
    let mut reader = Cut {
        left: INPUT.as_bytes(),
    };
    let mut output = Vec::new(rt.alloc());
    let ending = score_text(rt.alloc(), &mut reader, &mut output);
    same(&rt, "a read", ending, Err(ScriptFault::Read));
    same(&rt, "its text", output.as_slice(), WRONG.as_bytes());
    let ending = score_text(rt.alloc(), &mut INPUT.as_bytes(), &mut Full);
    same(&rt, "a write", ending, Err(ScriptFault::Write));
}
