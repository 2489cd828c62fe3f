//! The bench: the usual set-ups, and one language of events that drives a world, or a bridge alone (`bridge_bench`).
use axi_beats::{ArBeat, AwBeat, BBeat, BurstBox, RBeat, Resp, WBeat};
use axi_checker::AxiRule;
use bridge_core::Config;
use burst_plan::Region;
use std::alloc::Global;
use subordinate::PageKind;
use tl_checker::Level;
use tl_messages::{ABeat, DBeat, ReplyBox};
use world::{Answer, Setup, Step, World};

/// The limits of a bridge whose clients are at TL-UH.
#[derive(Clone, Copy)]
pub(crate) struct Limits {
    pub(crate) clients: u8,
    pub(crate) quota: u8,
    pub(crate) ids: u8,
    pub(crate) depth: u8,
    pub(crate) max_len: u16,
    pub(crate) max_size: u8,
    pub(crate) axi_bytes: u8,
}

/// Two clients, four live requests of each, 16 IDs, two bursts unanswered.
pub(crate) const USUAL: Limits = Limits {
    clients: 2,
    quota: 4,
    ids: 16,
    depth: 2,
    max_len: 16,
    max_size: 12,
    axi_bytes: 8,
};

/// The same limits as the bridge has them.
pub(crate) fn config_of(limits: Limits) -> Config {
    Config {
        clients: limits.clients,
        quota: limits.quota,
        ids: limits.ids,
        depth: limits.depth,
        max_len: limits.max_len,
        max_size: limits.max_size,
        levels: [Level::Uh; 8],
        axi_bytes: limits.axi_bytes,
    }
}

/// Leads TileLink pages 0 to 3 to AXI pages 0x10 to 0x13.
pub(crate) const FOUR_PAGES: Region = Region {
    tl_page: 0,
    pages: 4,
    axi_page: 0x10,
    get: true,
    put: true,
    atomic: true,
    hint: true,
};

/// Leads TileLink page 8 to AXI page 0x10 too.
pub(crate) const ALIAS: Region = Region {
    tl_page: 8,
    pages: 1,
    ..FOUR_PAGES
};

/// What a set-up is made of.
#[derive(Clone, Copy)]
pub(crate) struct Lists {
    pub(crate) limits: Limits,
    pub(crate) regions: &'static [Region],
    pub(crate) pages: &'static [(u32, PageKind)],
    pub(crate) bad_words: &'static [u32],
}

/// The usual limits, four pages, and a good page behind each.
pub(crate) const PLAIN: Lists = Lists {
    limits: USUAL,
    regions: &[FOUR_PAGES],
    pages: &[
        (0x10, PageKind::Good),
        (0x11, PageKind::Good),
        (0x12, PageKind::Good),
        (0x13, PageKind::Good),
    ],
    bad_words: &[],
};

/// The same on a bus of four bytes.
pub(crate) const NARROW: Lists = Lists {
    limits: Limits {
        axi_bytes: 4,
        ..USUAL
    },
    ..PLAIN
};

/// The same as the first, with one live request of each client.
pub(crate) const ONE_EACH: Lists = Lists {
    limits: Limits { quota: 1, ..USUAL },
    ..PLAIN
};

/// The same as the first with a second way to the first page.
pub(crate) const TWO_WAYS: Lists = Lists {
    regions: &[FOUR_PAGES, ALIAS],
    ..PLAIN
};

/// The set-up of some lists; none where these are too long for it.
pub(crate) fn set_up(lists: Lists) -> Option<Setup> {
    let mut setup = Setup::new(config_of(lists.limits));
    setup.regions.try_extend_from_slice(lists.regions).ok()?;
    setup.pages.try_extend_from_slice(lists.pages).ok()?;
    setup.bad_words.try_extend_from_slice(lists.bad_words).ok()?;
    Some(setup)
}

/// A beat that a client offers.
#[derive(Clone, Copy, Debug)]
pub(crate) enum Beat {
    /// A Get of at least eight bytes: its size, source and address.
    Get(u8, u8, u32),
    /// A beat of a PutFullData of at least eight bytes: size, source, address and payload.
    Put(u8, u8, u32, u64),
    /// The fields in the order of a trace's line: opcode, param, size, source, address, mask and payload; it isn't corrupt.
    A(u8, u8, u8, u8, u32, u8, u64),
    /// The same, corrupt.
    Corrupt(u8, u8, u8, u8, u32, u8, u64),
}

/// The A beat itself.
pub(crate) fn a_beat(beat: Beat) -> ABeat {
    let (opcode, param, size, source, address, mask, payload) = match beat {
        Get(size, source, address) => (4, 0, size, source, address, 0xff, 0),
        Put(size, source, address, payload) => (0, 0, size, source, address, 0xff, payload),
        A(opcode, param, size, source, address, mask, payload)
        | Corrupt(opcode, param, size, source, address, mask, payload) => {
            (opcode, param, size, source, address, mask, payload)
        }
    };
    ABeat {
        opcode,
        param,
        size,
        source,
        address,
        mask,
        payload,
        corrupt: matches!(beat, Corrupt(_, _, _, _, _, _, _)),
    }
}

/// Something done to a world or to a bridge alone, or seen of it, and the answer that it has to give.
#[derive(Clone, Copy)]
pub(crate) enum Event {
    /// A client offers a beat.
    Offer(u8, Beat, Answer),
    /// A client offers so many beats of a Put with the fields of this one; each byte of the first is 1, of the second 2,
    /// and so on. All but the last are answered More.
    OfferAll(u8, Beat, u16, Answer),
    /// The bridge sends a read under this serial: its ID, address, len and size.
    Read(u64, u8, u32, u8, u8),
    /// The bridge sends a write under this serial: its ID, address, len and size.
    Write(u64, u8, u32, u8, u8),
    /// The payload and the strobes of a W beat of the write that went last.
    Data(u16, u64, u8),
    /// No request is ready.
    Idle,
    /// The B of an ID comes. A bridge alone is handed it, and takes it.
    B(u8, Resp),
    /// An R of an ID comes, with its payload, and it isn't the last of its burst. A bridge alone is handed it.
    R(u8, u64, Resp),
    /// The last R of a burst of an ID comes.
    LastR(u8, u64, Resp),
    /// A client takes a reply.
    Take(u8, Answer),
    /// The reply that was taken last: how many beats, and the opcode, size, source and denied of each.
    Shows(u16, u8, u8, u8, bool),
    /// A beat of that reply: its payload, and whether it is corrupt.
    Payload(u16, u64, bool),
    FirstDone(u8, bool),
    InFlight(u16),
    /// The work that is left; a bridge alone counts each beat as unperformed until its answer has come.
    Work(u64),

    // These are for a world. A bridge alone passes over `Perform`, and plays the drain.
    /// The memory performs a beat of the burst with a serial.
    Perform(u64, u16, Answer),
    /// The memory has no B of an ID to give.
    NoB(u8),
    /// The memory has no R of an ID to give.
    NoR(u8),
    /// The world shows no burst.
    NoBurst,
    /// The world shows this read: its ID, address, len and size.
    Shown(u8, u32, u8, u8),
    /// A byte of memory.
    Byte(u32, Option<u8>),
    /// How many steps bridge and memory can make.
    Choices(u32),
    /// One of these steps.
    Choose(u32, Step),
    /// A drain, and how many steps it makes. A bridge alone has its reads answered with zeros.
    Drain(u64),

    /// A bridge alone is handed a B, and refuses it by this rule.
    WrongB(u8, Resp, AxiRule),
    /// A bridge alone is handed an R with a payload of 9, which is the last or isn't, and refuses it by this rule.
    WrongR(u8, Resp, bool, AxiRule),
    /// Whether a request of a bridge alone is ready.
    CanPump(bool),
    /// The work of the bursts that a bridge alone hasn't sent.
    Unsent(u64),
    /// How many boxes a bridge alone has.
    Stock(u8),
}

pub(crate) use Answer::{
    Accepted, Already, Done, More, NoClient, NoSuch, NotReady, Nothing, Refused, Reply,
};
pub(crate) use Beat::{A, Corrupt, Get, Put};
pub(crate) use Event::{
    B, Byte, CanPump, Choices, Choose, Data, Drain, FirstDone, Idle, InFlight, LastR, NoB, NoBurst,
    NoR, Offer, OfferAll, Payload, Perform, R, Read, Shown, Shows, Stock, Take, Unsent, Work,
    Write, WrongB, WrongR,
};
pub(crate) use Resp::{DecErr, ExOkay, Okay, SlvErr};

/// What a script drives.
pub(crate) trait Driven: Drop + Sized {
    /// One on which nothing was done; none where the set-up is refused.
    fn fresh(alloc: Global, lists: Lists) -> Option<Self>;

    /// Whether the answer is the one that the event has to give.
    fn carries(&mut self, event: Event) -> bool;
}

/// How many of the events gave their answers before one didn't.
pub(crate) fn carried_by<D: Driven>(driven: &mut D, events: &[Event]) -> usize {
    let mut done = 0usize;
    for event in events {
        let is_carried = match *event {
            OfferAll(client, beat, count, answer) => {
                offers_all(driven, client, beat, count, answer)
            }
            event => driven.carries(event),
        };
        if !is_carried {
            return done;
        }
        done = done.saturating_add(1);
    }
    done
}

/// The same of a fresh one; none where the set-up is refused.
pub(crate) fn carried<D: Driven>(alloc: Global, lists: Lists, events: &[Event]) -> Option<usize> {
    let mut driven = D::fresh(alloc, lists)?;
    Some(carried_by(&mut driven, events))
}

/// A script with a name, and the lists of the set-up that it runs on.
pub(crate) struct Script {
    pub(crate) name: &'static str,
    pub(crate) lists: Lists,
    pub(crate) events: &'static [Event],
}

/// The name of the first script that fails on a fresh one, and how many of its events gave their answers.
pub(crate) fn failing<D: Driven>(
    alloc: Global,
    scripts: &[Script],
) -> Option<(&'static str, usize)> {
    for script in scripts {
        let done = carried::<D>(alloc, script.lists, script.events).unwrap_or(0);
        if done != script.events.len() {
            return Some((script.name, done));
        }
    }
    None
}

/// Beat `k` of a Put whose beats have these fields.
fn put_beat(fields: Beat, k: u16) -> Beat {
    let payload = u64::from(k)
        .wrapping_add(1)
        .wrapping_mul(0x0101010101010101);
    match fields {
        Put(size, source, address, _) => Put(size, source, address, payload),
        other => other,
    }
}

fn offers_all<D: Driven>(
    driven: &mut D,
    client: u8,
    fields: Beat,
    count: u16,
    answer: Answer,
) -> bool {
    for k in 0..count {
        let wanted = if k < count - 1 { More } else { answer };
        if !driven.carries(Offer(client, put_beat(fields, k), wanted)) {
            return false;
        }
    }
    true
}

/// An AR beat of rising addresses.
pub(crate) const fn ar_beat(id: u8, address: u32, len: u8, size: u8) -> ArBeat {
    ArBeat {
        id,
        address,
        len,
        size,
        burst: 1,
    }
}

/// An AW beat of rising addresses.
pub(crate) const fn aw_beat(id: u8, address: u32, len: u8, size: u8) -> AwBeat {
    AwBeat {
        id,
        address,
        len,
        size,
        burst: 1,
    }
}

/// Whether a box holds the burst that an event tells of.
pub(crate) fn holds(burst: &BurstBox, event: Event) -> bool {
    match event {
        Read(_, id, address, len, size) | Shown(id, address, len, size) => {
            !burst.is_empty() && !burst.is_write() && burst.ar() == ar_beat(id, address, len, size)
        }
        Write(_, id, address, len, size) => {
            burst.is_write()
                && burst.w_beats() == u16::from(len) + 1
                && burst.aw() == aw_beat(id, address, len, size)
        }
        _ => true,
    }
}

/// Whether W beat `k` of a box is this; it is the last just where it should be.
pub(crate) fn holds_data(burst: &BurstBox, k: u16, payload: u64, strobes: u8) -> bool {
    if !burst.is_write() || k >= burst.w_beats() {
        return false;
    }
    let last = k == u16::from(burst.aw().len);
    let w = WBeat {
        payload,
        strobes,
        last,
    };
    burst.w(k) == w
}

/// The R beat that an event tells of.
pub(crate) const fn r_beat(id: u8, payload: u64, resp: Resp, last: bool) -> RBeat {
    RBeat {
        id,
        payload,
        resp,
        last,
    }
}

/// Whether a reply has so many beats, each of which is this but for its payload and whether it is corrupt.
fn is_shown(reply: &ReplyBox, beats: u16, fields: DBeat) -> bool {
    if reply.beats() != beats || beats == 0 {
        return false;
    }
    for beat in reply.as_slice() {
        let expected = DBeat {
            payload: beat.payload,
            corrupt: beat.corrupt,
            ..fields
        };
        if *beat != expected {
            return false;
        }
    }
    true
}

/// Whether beat `k` of a reply has this payload, and is corrupt or not.
fn has_payload(reply: &ReplyBox, k: u16, payload: u64, corrupt: bool) -> bool {
    if k >= reply.beats() {
        return false;
    }
    let beat = reply.beat(k);
    (beat.payload, beat.corrupt) == (payload, corrupt)
}

/// Whether a reply is as an event tells.
pub(crate) fn is_replied(reply: &ReplyBox, event: Event) -> bool {
    match event {
        Shows(beats, opcode, size, source, denied) => {
            let fields = DBeat {
                opcode,
                param: 0,
                size,
                source,
                denied,
                payload: 0,
                corrupt: false,
            };
            is_shown(reply, beats, fields)
        }
        Payload(k, payload, corrupt) => has_payload(reply, k, payload, corrupt),
        _ => false,
    }
}

/// A world, and the reply that was taken last.
#[derive(Drop)]
pub(crate) struct WorldBench {
    pub(crate) world: World,
    pub(crate) reply: ReplyBox,
}

/// The step that an event of a world makes, and its answer; none where it only looks.
pub(crate) fn step_of(event: Event) -> Option<(Step, Answer)> {
    let made = match event {
        Offer(client, beat, answer) => (Step::Offer(client, a_beat(beat)), answer),
        Read(serial, _, _, _, _) | Write(serial, _, _, _, _) => (Step::Pump, Answer::Sent(serial)),
        Idle => (Step::Pump, Answer::Idle),
        Perform(serial, beat, answer) => (Step::Perform(serial, beat), answer),
        B(id, resp) => (Step::AnswerB(id), Answer::B(BBeat { id, resp })),
        NoB(id) => (Step::AnswerB(id), Nothing),
        R(id, payload, resp) => (
            Step::AnswerR(id),
            Answer::R(r_beat(id, payload, resp, false)),
        ),
        LastR(id, payload, resp) => (
            Step::AnswerR(id),
            Answer::R(r_beat(id, payload, resp, true)),
        ),
        NoR(id) => (Step::AnswerR(id), Nothing),
        Take(client, answer) => (Step::Take(client), answer),
        _ => return None,
    };
    Some(made)
}

impl Driven for WorldBench {
    fn fresh(alloc: Global, lists: Lists) -> Option<WorldBench> {
        let setup = set_up(lists)?;
        let Ok(world) = World::new(alloc, &setup) else {
            return None;
        };
        let Ok(reply) = ReplyBox::new(alloc) else {
            return None;
        };
        Some(WorldBench { world, reply })
    }

    fn carries(&mut self, event: Event) -> bool {
        match step_of(event) {
            Some((step, answer)) => {
                self.world.step(&step, &mut self.reply) == answer
                    && holds(self.world.last_burst(), event)
            }
            None => self.sees(event),
        }
    }
}

impl WorldBench {
    /// Whether the world shows what an event tells.
    fn sees(&mut self, event: Event) -> bool {
        match event {
            Data(k, payload, strobes) => {
                holds_data(self.world.last_burst(), k, payload, strobes)
            }
            NoBurst => self.world.last_burst().is_empty(),
            Shown(_, _, _, _) => holds(self.world.last_burst(), event),
            Byte(address, byte) => self.world.byte(address) == byte,
            FirstDone(client, done) => self.world.first_done(client) == done,
            InFlight(count) => self.world.in_flight() == count,
            Work(work) => self.world.work_left() == work,
            Choices(count) => self.world.choices() == count,
            Choose(k, step) => k < self.world.choices() && self.world.choose(k) == step,
            Drain(made) => self.world.drain() == made,
            _ => is_replied(&self.reply, event),
        }
    }
}
