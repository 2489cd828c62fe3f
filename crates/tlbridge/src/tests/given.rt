//! Set-ups, scripts and lists of words.
use bridge_core::Config;
use bridge_threads::{Fault, Gate, Limits, run_threads};
use burst_plan::Region;
use std::alloc::{AllocError, Global};
use std::sync::Wait;
use std::thread::Threads;
use subordinate::PageKind;
use thread_reports::Report;
use tl_checker::Level;
use tl_messages::{ABeat, DBeat};
use world::Setup;

/// Two clients at TL-UH, four live requests of each, 16 IDs, two bursts unanswered.
pub(crate) const TWO_CLIENTS: Config = Config {
    clients: 2,
    quota: 4,
    ids: 16,
    depth: 2,
    max_len: 16,
    max_size: 12,
    levels: [Level::Uh; 8],
    axi_bytes: 8,
};

pub(crate) const ONE_CLIENT: Config = Config {
    clients: 1,
    ..TWO_CLIENTS
};

/// Leads TileLink pages 0 to 3 to AXI pages 0x10 to 0x13.
pub(crate) const FOUR_PAGES: Region = Region {
    tl_page: 0,
    pages: 4,
    axi_page: 0x10,
    get: true,
    put: true,
    atomic: true,
    hint: true,
};

const GOOD_PAGES: [(u32, PageKind); 4] = [
    (0x10, PageKind::Good),
    (0x11, PageKind::Good),
    (0x12, PageKind::Good),
    (0x13, PageKind::Good),
];

/// A bridge with these limits before four good pages.
pub(crate) fn set_up(config: Config) -> Setup {
    let mut setup = Setup::new(config);
    setup.regions.try_extend_from_slice(&[FOUR_PAGES]).unwrap();
    setup.pages.try_extend_from_slice(&GOOD_PAGES).unwrap();
    setup
}

/// A Get of eight bytes at 8, of source 1.
pub(crate) const GET: ABeat = ABeat {
    opcode: 4,
    param: 0,
    size: 3,
    source: 1,
    address: 8,
    mask: 0xff,
    payload: 0,
    corrupt: false,
};

/// A Put of eight bytes at 8, of source 0.
pub(crate) const PUT: ABeat = ABeat {
    opcode: 0,
    source: 0,
    payload: 0x1122334455667788,
    ..GET
};

/// The reply to the Put.
pub(crate) const PUT_REPLY: DBeat = DBeat {
    opcode: 0,
    param: 0,
    size: 3,
    source: 0,
    denied: false,
    payload: 0,
    corrupt: false,
};

/// The reply to the Get, where the Put came before.
pub(crate) const GET_REPLY: DBeat = DBeat {
    opcode: 1,
    source: 1,
    payload: 0x1122334455667788,
    ..PUT_REPLY
};

/// Limits that no run of a few requests meets.
pub(crate) const WIDE: Limits = Limits {
    steps: 200_000,
    idle: 100_000_000,
};

/// What a run is asked for.
#[derive(Clone, Copy)]
pub(crate) struct Asked {
    pub(crate) config: Config,
    pub(crate) scripts: &'static [&'static [ABeat]],
    pub(crate) words: &'static [&'static [u64]],
    pub(crate) limits: Limits,
}

/// A list for each of these.
pub(crate) fn lists_of<T: Copy>(alloc: Global, slices: &[&[T]]) -> Result<Vec<Vec<T>>, AllocError> {
    let mut lists = Vec::new(alloc);
    for slice in slices {
        let mut list = Vec::new(alloc);
        list.extend_from_slice(slice)?;
        lists.push(list)?;
    }
    Ok(lists)
}

/// What was asked for.
pub(crate) fn ran<R: Threads + Wait + Sync, G: Gate + Sync>(
    rt: &R,
    alloc: Global,
    asked: Asked,
    gate: &G,
) -> Result<Report, Fault> {
    let setup = set_up(asked.config);
    let Ok(scripts) = lists_of(alloc, asked.scripts) else {
        return Err(Fault::NoMemory);
    };
    let Ok(words) = lists_of(alloc, asked.words) else {
        return Err(Fault::NoMemory);
    };
    run_threads(
        rt,
        alloc,
        &setup,
        scripts.as_slice(),
        words.as_slice(),
        gate,
        asked.limits,
    )
}
