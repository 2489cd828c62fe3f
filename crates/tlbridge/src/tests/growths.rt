//! What takes memory. Each test makes one thing: it is there, or the memory for it was refused, and then the fault that says so
//! is the test's error. `tests/refusals.py` refuses each growth of these tests in turn.
use super::gates::Open;
use super::given::*;
use bridge_threads::{Shared, run_threads};
use std::test::Fail;
use tl_messages::ABeat;

#[test]
fn shared(rt: HostRuntime) -> Result<(), Fail> {
    Shared::new(rt.alloc(), &set_up(TWO_CLIENTS), 16)?;
    Ok(())
}

const SCRIPTS: [&[ABeat]; 2] = [&[PUT, GET], &[GET]];

const WORDS: [&[u64]; 2] = [&[7], &[3, 2]];

/// Where a growth is refused in the making of a thread, that is the fault.
#[test]
fn threads(rt: HostRuntime) -> Result<(), Fail> {
    let scripts = lists_of(rt.alloc(), &SCRIPTS)?;
    let words = lists_of(rt.alloc(), &WORDS)?;
    let setup = set_up(TWO_CLIENTS);
    run_threads(
        &rt,
        rt.alloc(),
        &setup,
        scripts.as_slice(),
        words.as_slice(),
        &Open,
        WIDE,
    )?;
    Ok(())
}

/// The lists of what it is asked for, which take memory before.
#[test]
fn lists_alone(rt: HostRuntime) -> Result<(), Fail> {
    lists_of(rt.alloc(), &SCRIPTS)?;
    lists_of(rt.alloc(), &WORDS)?;
    Ok(())
}
