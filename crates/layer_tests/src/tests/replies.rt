//! The rules of a reply, which a port's beats on channel D are judged by.
use super::same;
use std::test::Fail;
use tl_checker::check_reply;
use tl_messages::{ABeat, DBeat, Request};

/// A Get of 16 bytes of source 2.
const GET: ABeat = ABeat {
    opcode: 4,
    param: 0,
    size: 4,
    source: 2,
    address: 0,
    mask: 0xff,
    payload: 0,
    corrupt: false,
};

/// A beat of the reply to it.
const REPLY: DBeat = DBeat {
    opcode: 1,
    param: 0,
    size: 4,
    source: 2,
    denied: false,
    payload: 0,
    corrupt: false,
};

/// Denied, but not corrupt.
const UNSOUND: DBeat = DBeat {
    denied: true,
    ..REPLY
};

const DENIED: DBeat = DBeat {
    corrupt: true,
    ..UNSOUND
};

const OTHER_OPCODE: DBeat = DBeat { opcode: 0, ..REPLY };

const OTHER_SIZE: DBeat = DBeat {
    size: 3,
    source: 1,
    ..REPLY
};

const OTHER_SOURCE: DBeat = DBeat { source: 1, ..REPLY };

/// Replies to that Get, with the number and the name of the rule that each breaks; none where it is right.
const REPLIES: &[(&[DBeat], Option<(u8, &str)>)] = &[
    (&[REPLY, REPLY], None),
    (&[DENIED, DENIED], None),
    (&[OTHER_OPCODE], Some((11, "D_OPCODE"))),
    (&[OTHER_SIZE], Some((12, "D_SIZE"))),
    (&[OTHER_SOURCE], Some((13, "D_SOURCE"))),
    (&[], Some((14, "D_BEATS"))),
    (&[REPLY], Some((14, "D_BEATS"))),
    (&[REPLY, REPLY, DENIED], Some((14, "D_BEATS"))),
    (&[REPLY, DENIED], Some((15, "D_DENIED"))),
    (&[UNSOUND, UNSOUND], Some((16, "D_CORRUPT"))),
];

#[test]
fn replies(rt: HostRuntime) -> Result<(), Fail> {
    let mut request = Request::new(rt.alloc())?;
    request.begin(0, &GET);
    for (place, (beats, wanted)) in REPLIES.iter().enumerate() {
        let broken = check_reply(&request, *beats).err();
        let told = broken.map(|rule| (rule.number(), rule.name()));
        same(&rt, place, told, *wanted);
    }
    Ok(())
}
