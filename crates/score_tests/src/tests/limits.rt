//! The set-up of a bridge that is only observed: which limits of its port there are, and that it is read of another one.
use super::{CONFIG, REGION, board_set_up, refused_set_up, same, set_up};
use burst_plan::MapFault;
use score_setup::{ScoreConfig, ScoreSetup, score_setup_fault};
use setups::SetupFault;
use sparse_memory::{PageRange, RangeKind};
use tl_checker::Level;

/// IDs and their depth, and whether a port may have so many.
const PORTS: [(u16, u16, bool); 9] = [
    (1, 1, true),
    (256, 16, true),
    (16, 256, true),
    (0, 1, false),
    (1, 0, false),
    (257, 1, false),
    (1, 257, false),
    (241, 17, false),
    (65_535, 65_535, false),
];

/// A page by itself, whose bytes start as zero.
fn page(first: u32) -> PageRange {
    PageRange {
        first,
        count: 1,
        kind: RangeKind::Zeros,
    }
}

#[test]
fn limits_of_the_port(rt: HostRuntime) {
    for (ids, depth, valid) in PORTS {
        let config = ScoreConfig {
            ids,
            depth,
            ..ScoreConfig::of(&CONFIG)
        };
        same(&rt, (ids, depth), config.is_valid(), valid);
        let fault = score_setup_fault(&ScoreSetup::new(config));
        let bad = Some(SetupFault::BadConfig);
        same(&rt, (ids, depth), fault == bad, !valid);
    }
}

#[test]
fn levels_of_the_clients(rt: HostRuntime) {
    let config = ScoreConfig::of(&CONFIG);
    for (client, level) in [(0, Level::Uh), (7, Level::Uh), (8, Level::Ul)] {
        same(&rt, client, config.level_of(client), level);
    }
}

#[test]
fn a_set_up_of_a_bridge(rt: HostRuntime) {
    let setup = set_up(REGION).expect(&rt, "room");
    let read = board_set_up(REGION).expect(&rt, "room");
    same(&rt, "config", read.config, ScoreConfig::of(&setup.config));
    let pages = [page(0x10), page(0x11), page(0x12), page(0x13)];
    same(&rt, "pages", read.pages.as_slice(), pages.as_slice());
    same(&rt, "fault", score_setup_fault(&read), None);
    let refused = refused_set_up().expect(&rt, "room");
    let fault = Some(SetupFault::Map(MapFault::RegionEmpty(0)));
    let read = ScoreSetup::of(&refused);
    same(&rt, "refused", score_setup_fault(&read), fault);
}
