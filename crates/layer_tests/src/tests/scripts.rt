//! The first script, whose reads and writes fail in turn.
use super::same;
use super::writers::Failing;
use run_script::run_text;
use script_text::ScriptFault;
use std::alloc::Global;
use std::io;
use std::io::{ErrorKind, Read};
use std::test::Fail;

/// The first script, line by line, and each line's trace.
const FIRST: [(&str, &str); 9] = [
    ("config 2 4 16 2 16 12 hh\n", ""),
    ("region 0 4 10 gpah\n", ""),
    ("page 10 4 good\n", ""),
    (
        "a 0 0 0 3 5 8 ff 1122334455667788 0\n",
        "A 0 0 0 3 5 00000008 ff 1122334455667788 0\n= accepted 0\n",
    ),
    (
        "pump\n",
        "= sent 0\nAW 0 00010008 0 3 1\nW 1122334455667788 ff 1\n",
    ),
    ("do 0 0\n", "= done\n"),
    ("b 0\n", "B 0 OKAY\n"),
    ("take 0\n", "= reply 0\nD 0 0 0 3 5 0 0000000000000000 0\n"),
    ("mem 10008\n", "= mem 88\n"),
];

/// A reader that gives a line at a time. After the last the input ends, or the read is interrupted.
#[derive(Drop)]
struct Lines<'a> {
    left: &'a [(&'a str, &'a str)],
    ends: bool,
}

impl Read for Lines<'_> {
    fn read(&mut self, buf: &mut [u8]) -> io::Result<usize> {
        match self.left {
            [] if self.ends => Ok(0),
            [] => Err(io::Error::from(ErrorKind::Interrupted)),
            [(line, _), left @ ..] => {
                self.left = left;
                line.as_bytes().read(buf)
            }
        }
    }
}

/// Runs the first script over a writer whose call number `fails` fails.
fn ran(alloc: Global, fails: u32) -> (Result<bool, ScriptFault>, Failing) {
    let mut reader = Lines {
        left: &FIRST,
        ends: true,
    };
    let mut writer = Failing::at(alloc, fails);
    let ending = run_text(alloc, &mut reader, &mut writer);
    (ending, writer)
}

#[test]
fn reads_that_fail(rt: HostRuntime) -> Result<(), Fail> {
    let mut trace = Vec::new(rt.alloc());
    for count in 0..FIRST.len() {
        let mut reader = Lines {
            left: &FIRST[..count],
            ends: false,
        };
        let mut output = Vec::new(rt.alloc());
        let ending = run_text(rt.alloc(), &mut reader, &mut output);
        same(&rt, ("lines", count), ending, Err(ScriptFault::Read));
        same(&rt, ("trace", count), output.as_slice(), trace.as_slice());
        trace.extend_from_slice(FIRST[count].1.as_bytes())?;
    }
    let (ending, whole) = ran(rt.alloc(), u32::MAX);
    same(&rt, "none fails", ending, Ok(false));
    same(&rt, "trace", whole.text.as_slice(), trace.as_slice());
    Ok(())
}

#[test]
fn writes_that_fail(rt: HostRuntime) {
    let (_, whole) = ran(rt.alloc(), u32::MAX);
    // One for each of the six commands, before the next line is read, and none for the set-up's lines.
    same(&rt, "flushes", whole.flushes, 6);
    // Ten lines, and the flushes.
    same(&rt, "calls", 16 <= whole.calls, true);
    for fails in 0..whole.calls {
        let (ending, _) = ran(rt.alloc(), fails);
        same(&rt, ("write", fails), ending, Err(ScriptFault::Write));
    }
}
