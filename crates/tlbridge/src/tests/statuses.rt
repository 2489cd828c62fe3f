//! The exit status and the text of faults that no run of the program ends with.
use crate::faults::{TextFault, status_of};
use bridge_threads::Fault;
use std::test::Fail;

/// The faults of threads that no run of the program ends with, and the text of each.
const UNSEEN: [(Fault, &str); 5] = [
    (Fault::BadConfig, "thread fault: 1 BadConfig"),
    (Fault::Spawn, "thread fault: 3 Spawn"),
    (Fault::GateShut, "thread fault: 4 GateShut"),
    (Fault::IdleLimit, "thread fault: 5 IdleLimit"),
    (
        Fault::ReceiptMismatch {
            client: 1,
            index: 2,
        },
        "thread fault: 8 ReceiptMismatch client 1 index 2",
    ),
];

#[test]
fn statuses_and_texts(rt: HostRuntime) -> Result<(), Fail> {
    let unwell: Result<bool, TextFault> = Err(TextFault::Thread(Fault::NoMemory));
    assert_eq!(rt; status_of(&unwell), 4);
    for (fault, text) in UNSEEN {
        let fault = TextFault::Thread(fault);
        assert_eq!(rt; status_of(&Err(fault)), 5, "{text}");
        assert_eq!(rt; fault.to_string(rt.alloc())?.as_str(), text);
    }
    Ok(())
}
