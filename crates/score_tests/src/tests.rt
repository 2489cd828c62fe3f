mod boards;
mod limits;
mod runs;
mod serial_memories;
mod sparse_memories;
mod texts;

use axi_beats::{ArBeat, AwBeat, BBeat, RBeat, Resp, WBeat};
use axi_checker::AxiBeat;
use burst_plan::Region;
use config::Config;
use score_setup::ScoreSetup;
use scoreboard::ObservedBeat;
use setups::Setup;
use std::fmt::Debug;
use std::process::Abort;
use subordinate::PageKind;
use tl_checker::Level;
use tl_messages::{ABeat, DBeat};

/// Has the test fail where two values differ; `case` says of what they are.
fn same<C: Debug + Drop, T: Debug + Drop + PartialEq>(rt: &impl Abort, case: C, got: T, wanted: T) {
    assert_eq!(rt; got, wanted, "{case:?}");
}

/// TileLink pages 0 to 3 lead to AXI pages 0x10 to 0x13.
const REGION: Region = Region {
    tl_page: 0,
    pages: 4,
    axi_page: 0x10,
    get: true,
    put: true,
    atomic: true,
    hint: true,
};

const PAGES: [(u32, PageKind); 4] = [
    (0x10, PageKind::Good),
    (0x11, PageKind::Good),
    (0x12, PageKind::Good),
    (0x13, PageKind::Good),
];

/// Two clients and a bus of eight bytes.
const CONFIG: Config = Config {
    clients: 2,
    quota: 4,
    ids: 16,
    depth: 2,
    max_len: 16,
    max_size: 12,
    levels: [Level::Uh; 8],
    axi_bytes: 8,
};

/// All four pages are good.
fn set_up(region: Region) -> Option<Setup> {
    let mut setup = Setup::new(CONFIG);
    setup.regions.try_extend_from_slice(&[region]).ok()?;
    setup.pages.try_extend_from_slice(&PAGES).ok()?;
    Some(setup)
}

/// The same, as a board takes it.
fn board_set_up(region: Region) -> Option<ScoreSetup> {
    let setup = set_up(region)?;
    Some(ScoreSetup::of(&setup))
}

/// The region has no pages.
fn refused_set_up() -> Option<Setup> {
    set_up(Region { pages: 0, ..REGION })
}

/// Eight bytes of client 0.
const PUT: ABeat = ABeat {
    opcode: 0,
    param: 0,
    size: 3,
    source: 5,
    address: 8,
    mask: 0xff,
    payload: 0x1122_3344_5566_7788,
    corrupt: false,
};

const ACK: DBeat = DBeat {
    opcode: 0,
    param: 0,
    size: 3,
    source: 5,
    denied: false,
    payload: 0,
    corrupt: false,
};

/// The upper half of them, by client 1.
const GET: ABeat = ABeat {
    opcode: 4,
    param: 0,
    size: 2,
    source: 7,
    address: 0xc,
    mask: 0xf0,
    payload: 0,
    corrupt: false,
};

const DATA: DBeat = DBeat {
    opcode: 1,
    param: 0,
    size: 2,
    source: 7,
    denied: false,
    payload: 0x1122_3344_0000_0000,
    corrupt: false,
};

const AW: AwBeat = AwBeat {
    id: 0,
    address: 0x10008,
    len: 0,
    size: 3,
    burst: 1,
};

const W: WBeat = WBeat {
    payload: 0x1122_3344_5566_7788,
    strobes: 0xff,
    last: true,
};

const B: BBeat = BBeat {
    id: 0,
    resp: Resp::Okay,
};

const AR: ArBeat = ArBeat {
    id: 0,
    address: 0x1000c,
    len: 0,
    size: 2,
    burst: 1,
};

const R: RBeat = RBeat {
    id: 0,
    payload: 0x1122_3344_0000_0000,
    resp: Resp::Okay,
    last: true,
};

/// What is seen of the Put, and then of the Get, with how many replies aren't seen whole and how many bursts are open after
/// each.
const SEEN: [(ObservedBeat, u16, usize); 9] = [
    (ObservedBeat::A(0, PUT), 1, 0),
    (ObservedBeat::Axi(AxiBeat::Aw(AW)), 1, 1),
    (ObservedBeat::Axi(AxiBeat::W(W)), 1, 1),
    (ObservedBeat::Axi(AxiBeat::B(B)), 1, 0),
    (ObservedBeat::D(0, ACK), 0, 0),
    (ObservedBeat::A(1, GET), 1, 0),
    (ObservedBeat::Axi(AxiBeat::Ar(AR)), 1, 1),
    (ObservedBeat::Axi(AxiBeat::R(R)), 1, 0),
    (ObservedBeat::D(1, DATA), 0, 0),
];
