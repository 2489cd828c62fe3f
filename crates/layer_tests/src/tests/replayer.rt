//! Long runs of two clients whose turns come by lot, beside a plain replayer: it carries out each request as it is
//! accepted, one after another, on an array of bytes. Every reply and the memory at the end have to be the same.
use super::bench::*;
use std::alloc::{AllocError, Global};
use tl_checker::TlRule;
use tl_messages::{ABeat, DBeat, ReplyBox};
use world::{Answer, Step};

/// The bytes of the four pages.
const BYTES: u32 = 16_384;

/// A request of a client's script: what it offers, and how many beats it offers.
fn script(place: u8) -> (ABeat, u8) {
    let (beat, beats) = match place {
        0 => (Put(4, 0, 0, 0), 2),
        1 => (Get(6, 0, 0), 1),
        2 => (A(2, 4, 2, 0, 8, 0x0f, 0), 1),
        _ => (A(1, 0, 3, 0, 8, 0x3c, 0), 1),
    };
    (a_beat(beat), beats)
}

/// Where a client is: how many requests it has behind it, which say the request and its source, and which beat.
#[derive(Clone, Copy)]
struct Client {
    count: u32,
    beat: u8,
    /// The payload of the beat that is to be offered again.
    offered: Option<u64>,
    /// The payload of the first beat of a request of two.
    first: u64,
}

const AT_THE_START: Client = Client {
    count: 0,
    beat: 0,
    offered: None,
    first: 0,
};

/// Which of the four requests a client is at.
fn place(at: Client) -> u8 {
    (at.count % 4) as u8
}

fn source(at: Client) -> u8 {
    (at.count % 8) as u8
}

/// How far the addresses of a client's request are from those of the script: where the requests are spread they go
/// round in five blocks of 64 bytes.
fn base(at: Client, spread: bool) -> u32 {
    if spread {
        (at.count % 5).wrapping_mul(64)
    } else {
        0
    }
}

/// The reply to a request: its first eight payloads are all that a reply of this script has.
#[derive(Clone, Copy)]
struct Expected {
    client: u8,
    first: DBeat,
    beats: u16,
    payloads: [u64; 8],
}

/// A plain memory, and by its number the reply to each request, until it is taken.
#[derive(Drop)]
struct Replayer {
    bytes: Vec<u8>,
    expected: Vec<Option<Expected>>,
    taken: u64,
    spread: bool,
}

/// Both sides, and the two clients.
#[derive(Drop)]
struct Race {
    bench: WorldBench,
    replayer: Replayer,
    clients: [Client; 2],
}

/// A memory of zeros.
fn zeros(alloc: Global) -> Result<Vec<u8>, AllocError> {
    Ok(vec![in alloc; 0; BYTES as usize]?)
}

fn start(alloc: Global, lists: Lists, spread: bool) -> Option<Race> {
    let replayer = Replayer {
        bytes: zeros(alloc).ok()?,
        expected: Vec::new(alloc),
        taken: 0,
        spread,
    };
    Some(Race {
        bench: WorldBench::fresh(alloc, lists)?,
        replayer,
        clients: [AT_THE_START; 2],
    })
}

/// The eight bytes of a word, the least significant first, from an address on.
fn load(bytes: &[u8], address: u32) -> u64 {
    let mut word = 0u64;
    for k in 0..8u32 {
        let place = address.wrapping_add(7).wrapping_sub(k) as usize;
        let byte = bytes.get(place).copied().unwrap_or(0);
        word = word.wrapping_mul(256).wrapping_add(u64::from(byte));
    }
    word
}

/// Stores the bytes of a word whose lanes a mask has.
fn store(bytes: &mut Vec<u8>, address: u32, word: u64, mask: u8) {
    let mut rest = word;
    let mut lanes = mask;
    for k in 0..8u32 {
        let place = address.wrapping_add(k) as usize;
        if lanes % 2 == 1 && place < bytes.len() {
            bytes[place] = (rest % 256) as u8;
        }
        lanes /= 2;
        rest /= 256;
    }
}

/// Eight words of memory.
fn words(bytes: &[u8], address: u32) -> [u64; 8] {
    [
        load(bytes, address),
        load(bytes, address.wrapping_add(8)),
        load(bytes, address.wrapping_add(16)),
        load(bytes, address.wrapping_add(24)),
        load(bytes, address.wrapping_add(32)),
        load(bytes, address.wrapping_add(40)),
        load(bytes, address.wrapping_add(48)),
        load(bytes, address.wrapping_add(56)),
    ]
}

/// Carries out the request that a client is at, of which this is the last payload, and answers the opcode, the beats
/// and the payloads of its reply.
fn carry_out(bytes: &mut Vec<u8>, at: Client, base: u32, last: u64) -> (u8, u16, [u64; 8]) {
    let none = [0; 8];
    let second = base.wrapping_add(8);
    match place(at) {
        0 => {
            store(bytes, base, at.first, 0xff);
            store(bytes, second, last, 0xff);
            (0, 1, none)
        }
        1 => (1, 8, words(bytes.as_slice(), base)),
        2 => {
            let old = (load(bytes.as_slice(), second) % 0x1_0000_0000) as u32;
            let new = old.wrapping_add((last % 0x1_0000_0000) as u32);
            store(bytes, second, u64::from(new), 0x0f);
            (1, 1, [u64::from(old), 0, 0, 0, 0, 0, 0, 0])
        }
        _ => {
            store(bytes, second, last, 0x3c);
            (0, 1, none)
        }
    }
}

/// The request that a client just offered whole was accepted; whether its number is the next.
fn replay(replayer: &mut Replayer, client: u8, at: Client, last: u64, number: u64) -> bool {
    if replayer.expected.len() as u64 != number {
        return false;
    }
    let base = base(at, replayer.spread);
    let (opcode, beats, payloads) = carry_out(&mut replayer.bytes, at, base, last);
    let (beat, _) = script(place(at));
    let expected = Expected {
        client,
        first: DBeat {
            opcode,
            param: 0,
            size: beat.size,
            source: source(at),
            denied: false,
            payload: 0,
            corrupt: false,
        },
        beats,
        payloads,
    };
    replayer.expected.push(Some(expected)).is_ok()
}

/// Where a client is once its beat was taken.
fn after(at: Client, payload: u64) -> Client {
    let (_, beats) = script(place(at));
    if at.beat.wrapping_add(1) < beats {
        return Client {
            beat: at.beat.wrapping_add(1),
            offered: None,
            first: payload,
            ..at
        };
    }
    Client {
        count: at.count.wrapping_add(1),
        beat: 0,
        offered: None,
        first: 0,
    }
}

/// The beat that a client is at but for its payload. Where the requests are spread client 1 goes by another way to the
/// same bytes.
fn next_beat(client: u8, at: Client, spread: bool) -> ABeat {
    let (form, _) = script(place(at));
    let way = if spread && client == 1 { 0x8000 } else { 0 };
    let address = form.address.wrapping_add(base(at, spread));
    ABeat {
        source: source(at),
        address: address.wrapping_add(way),
        ..form
    }
}

/// A client offers its next beat, with this payload where it has data and wasn't offered before.
fn offer_next(race: &mut Race, client: u8, x: u64) -> bool {
    let at = race.clients[usize::from(client % 2)];
    let payload = if place(at) == 1 {
        0
    } else {
        at.offered.unwrap_or(x)
    };
    let beat = ABeat {
        payload,
        ..next_beat(client, at, race.replayer.spread)
    };
    let next = match race
        .bench
        .world
        .step(&Step::Offer(client, beat), &mut race.bench.reply)
    {
        Answer::More => after(at, payload),
        Answer::Accepted(number) => {
            if !replay(&mut race.replayer, client, at, payload, number) {
                return false;
            }
            after(at, payload)
        }
        Answer::NotReady | Answer::Refused(TlRule::SourceBusy) => Client {
            offered: Some(payload),
            ..at
        },
        _ => return false,
    };
    race.clients[usize::from(client % 2)] = next;
    true
}

/// Whether the reply in the box is the replayer's.
fn is_expected(reply: &ReplyBox, expected: Expected) -> bool {
    if reply.beats() != expected.beats {
        return false;
    }
    for k in 0..reply.beats() {
        let payload = expected.payloads.get(usize::from(k)).copied();
        let beat = DBeat {
            payload: payload.unwrap_or(0),
            ..expected.first
        };
        if reply.beat(k) != beat {
            return false;
        }
    }
    true
}

/// A client takes a reply, if there is one; whether it is the replayer's, and wasn't taken before.
fn take_next(race: &mut Race, client: u8) -> bool {
    match race
        .bench
        .world
        .step(&Step::Take(client), &mut race.bench.reply)
    {
        Answer::Nothing => true,
        Answer::Reply(number) => {
            race.replayer.taken = race.replayer.taken.wrapping_add(1);
            let Some(kept) = race.replayer.expected.get_mut(number as usize) else {
                return false;
            };
            match kept.take() {
                Some(expected) => {
                    expected.client == client && is_expected(&race.bench.reply, expected)
                }
                None => false,
            }
        }
        _ => false,
    }
}

/// Bridge and memory make a step, if they can make one.
fn move_on(race: &mut Race, lot: u64) -> bool {
    let choices = u64::from(race.bench.world.choices());
    if choices == 0 {
        return true;
    }
    let k = (lot % choices) as u32;
    if k >= race.bench.world.choices() {
        return false;
    }
    let step = race.bench.world.choose(k);
    matches!(
        race.bench.world.step(&step, &mut race.bench.reply),
        Answer::Sent(_) | Answer::Done | Answer::B(_) | Answer::R(_)
    )
}

fn next_word(x: u64) -> u64 {
    x.wrapping_mul(6364136223846793005)
        .wrapping_add(1442695040888963407)
}

/// One turn; whether all went as it must.
fn turn(race: &mut Race, x: u64) -> bool {
    let w = x / 0x2_0000_0000;
    let client = ((w / 4) % 2) as u8;
    match w % 4 {
        0 => offer_next(race, client, x),
        1 => take_next(race, client),
        _ => move_on(race, w / 4),
    }
}

/// How many turns went as they must before one didn't.
fn turns(race: &mut Race, count: u32) -> u32 {
    let mut x = 1;
    for k in 0..count {
        x = next_word(x);
        if !turn(race, x) {
            return k;
        }
    }
    count
}

/// Whether the clients take what is left, these are the replayer's replies, and none of them stays.
fn takes_the_rest(race: &mut Race) -> bool {
    for _ in 0..4 {
        if !take_next(race, 0) || !take_next(race, 1) {
            return false;
        }
    }
    race.replayer.taken == race.replayer.expected.len() as u64
}

/// The first byte of the four pages that isn't the replayer's.
fn first_other(race: &Race) -> Option<u32> {
    for k in 0..BYTES {
        let byte = race.replayer.bytes.get(k as usize).copied();
        if byte.is_none() || race.bench.world.byte(0x10000u32.wrapping_add(k)) != byte {
            return Some(k);
        }
    }
    None
}

/// Whether so many turns go as they must, so many replies are taken, and a drain makes so many steps.
fn goes_well(mut race: Race, count: u32, replies: u64, left: u64) -> bool {
    turns(&mut race, count) == count
        && race.bench.world.work_left() == left
        && race.bench.world.drain() == left
        && first_other(&race).is_none()
        && takes_the_rest(&mut race)
        && race.replayer.taken == replies
}

#[test]
fn ten_thousand_turns(rt: HostRuntime) {
    for (lists, replies, left) in [(PLAIN, 674, 32), (NARROW, 416, 82)] {
        let race = start(rt.alloc(), lists, false).expect(&rt, "a world");
        assert!(rt; goes_well(race, 10_000, replies, left), "{replies}");
    }
}

/// Bursts of at most four beats to places apart, of which many are open at once.
#[test]
fn two_thousand_turns_with_many_bursts(rt: HostRuntime) {
    const WIDE: Lists = Lists {
        limits: Limits {
            max_len: 4,
            ..USUAL
        },
        ..TWO_WAYS
    };
    const SLIM: Lists = Lists {
        limits: Limits {
            max_len: 4,
            axi_bytes: 4,
            ..USUAL
        },
        ..TWO_WAYS
    };
    for (lists, replies, left) in [(WIDE, 133, 44), (SLIM, 84, 96)] {
        let race = start(rt.alloc(), lists, true).expect(&rt, "a world");
        assert!(rt; goes_well(race, 2_000, replies, left), "{replies}");
    }
}
