use std::fmt::Debug;
use std::process::Abort;

mod gates;
mod given;
mod growths;
mod runs;
mod shared;
mod statuses;

/// Has the test fail where two values differ; `case` says of what they are.
pub(crate) fn same<C: Debug + Drop, T: Debug + Drop + PartialEq>(
    rt: &impl Abort,
    case: C,
    got: T,
    wanted: T,
) {
    assert_eq!(rt; got, wanted, "{case:?}");
}
