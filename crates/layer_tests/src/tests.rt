//! One module for each subject.
use std::fmt::Debug;
use std::process::Abort;

mod answers;
mod asked;
mod bench;
mod bridge_bench;
mod calls;
mod checkers;
mod choices;
mod constructors;
mod flights;
mod lines;
mod memories;
mod offers;
mod order;
mod pages;
mod replayer;
mod replies;
mod reports;
mod runs;
mod scripts;
mod writers;

/// Has the test fail where two values differ; `case` says of what they are.
pub(crate) fn same<C: Debug + Drop, T: Debug + Drop + PartialEq>(
    rt: &impl Abort,
    case: C,
    got: T,
    wanted: T,
) {
    assert_eq!(rt; got, wanted, "{case:?}");
}
