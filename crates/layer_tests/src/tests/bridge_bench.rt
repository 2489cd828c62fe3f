//! A bridge alone, whose memory is played by hand.
ghost use Rattle.std.specs.Prelude.{◌≡◌};
ghost use Rattle.bridge_core.specs.Bridge.{boxes_of};

use super::bench::*;
use axi_beats::{BBeat, BurstBox, RBeat};
use axi_checker::AxiRule;
use bridge_core::{Bridge, Offered, Taken};
use burst_plan::PageMap;
use std::alloc::Global;
use tl_messages::{ABeat, ReplyBox};
use world::Answer;

/// A bridge alone, how many boxes it was made with, the bursts that are unanswered in the order sent, how many it sent, and the
/// reply that was taken last.
#[derive(Drop)]
pub(crate) struct BridgeBench {
    bridge: Bridge,
    boxes: usize,
    unanswered: Vec<BurstBox>,
    sent: u64,
    reply: ReplyBox,
    ghost all_boxes: { boxes ≡ boxes_of bridge.state.requests.config },
}

// ---- What a bridge is told; its limits stay.

/// A bridge's answer to a beat, as a world gives it.
fn offer(bridge: &mut Bridge, client: u8, beat: &ABeat) -> Answer
    ensures { bridge.new.state.requests.config ≡ bridge.old.state.requests.config }
{
    match bridge.offer(client, beat) {
        Offered::NoClient => NoClient,
        Offered::Refused(rule) => Refused(rule),
        Offered::NotReady => NotReady,
        Offered::Exhausted => Answer::Exhausted,
        Offered::More => More,
        Offered::Accepted(number) => Accepted(number),
    }
}

/// The next burst, where one is ready and a box in stock.
fn pump(bridge: &mut Bridge) -> Option<BurstBox>
    ensures { bridge.new.state.requests.config ≡ bridge.old.state.requests.config }
{
    if bridge.stock() == 0 {
        return None;
    }
    bridge.pump_box()
}

fn tell_b(bridge: &mut Bridge, beat: &BBeat) -> Result<(), AxiRule>
    ensures { bridge.new.state.requests.config ≡ bridge.old.state.requests.config }
{
    if let Err(rule) = bridge.on_b(beat) {
        return Err(rule);
    }
    Ok(())
}

fn tell_r(bridge: &mut Bridge, beat: &RBeat) -> Result<(), AxiRule>
    ensures { bridge.new.state.requests.config ≡ bridge.old.state.requests.config }
{
    if let Err(rule) = bridge.on_r(beat) {
        return Err(rule);
    }
    Ok(())
}

/// A bridge's answer to a client that asks for a reply, as a world gives it.
fn take(bridge: &mut Bridge, client: u8, reply: &mut ReplyBox) -> Answer
    ensures { bridge.new.state.requests.config ≡ bridge.old.state.requests.config }
{
    match bridge.take(client, reply) {
        Taken::NoClient => NoClient,
        Taken::Nothing => Nothing,
        Taken::Reply(number) => Reply(number),
    }
}

/// Whether a box holds a write, or a read, of an ID.
fn is_of(burst: &BurstBox, is_write: bool, id: u8) -> bool {
    if burst.is_write() {
        return is_write && burst.aw().id == id;
    }
    !is_write && !burst.is_empty() && burst.ar().id == id
}

impl Driven for BridgeBench {
    fn fresh(alloc: Global, lists: Lists) -> Option<BridgeBench> {
        let setup = set_up(lists)?;
        let map = PageMap::new(alloc, setup.regions.as_slice()).ok()?;
        let reply = ReplyBox::new(alloc).ok()?;
        let boxes = usize::from(setup.config.ids) * usize::from(setup.config.depth);
        let Ok(bridge) = Bridge::new(alloc, setup.config, map) else {
            return None;
        };
        Some(BridgeBench {
            bridge,
            boxes,
            unanswered: Vec::new(alloc),
            sent: 0,
            reply,
        })
    }

    fn carries(&mut self, event: Event) -> bool {
        match event {
            Offer(client, beat, answer) => self.offers(client, &a_beat(beat)) == answer,
            Read(serial, _, _, _, _) | Write(serial, _, _, _, _) => {
                self.sent == serial && self.sends() && self.has_sent(event)
            }
            B(id, resp) => self.takes_b(&BBeat { id, resp }),
            R(id, payload, resp) => self.takes_r(&r_beat(id, payload, resp, false)),
            LastR(id, payload, resp) => self.takes_r(&r_beat(id, payload, resp, true)),
            WrongB(id, resp, rule) => self.refuses_b(&BBeat { id, resp }, rule),
            WrongR(id, resp, last, rule) => self.refuses_r(&r_beat(id, 9, resp, last), rule),
            Take(client, answer) => self.takes(client) == answer,
            Drain(steps) => self.drains() == steps,
            _ => self.sees(event),
        }
    }
}

impl BridgeBench {
    fn offers(&mut self, client: u8, beat: &ABeat) -> Answer {
        offer(&mut self.bridge, client, beat)
    }

    fn takes(&mut self, client: u8) -> Answer {
        take(&mut self.bridge, client, &mut self.reply)
    }

    /// Whether a burst goes; it is kept.
    fn sends(&mut self) -> bool {
        let Some(burst) = pump(&mut self.bridge) else {
            return false;
        };
        self.sent = self.sent.wrapping_add(1);
        self.unanswered.push(burst).is_ok()
    }

    /// Whether the burst that went last is unanswered, and the one that an event tells of.
    fn has_sent(&self, event: Event) -> bool {
        match self.unanswered.last() {
            Some(burst) => holds(burst, event),
            None => false,
        }
    }

    /// Whether a B is taken; the box of the write that it answers goes back.
    fn takes_b(&mut self, beat: &BBeat) -> bool {
        tell_b(&mut self.bridge, beat).is_ok() && self.gives_back(true, beat.id)
    }

    /// Whether an R is taken; with the last of a read its box goes back.
    fn takes_r(&mut self, beat: &RBeat) -> bool {
        tell_r(&mut self.bridge, beat).is_ok() && (!beat.last || self.gives_back(false, beat.id))
    }

    /// Whether the box of the oldest unanswered write, or read, of an ID goes back.
    fn gives_back(&mut self, is_write: bool, id: u8) -> bool {
        let mut unanswered = self.unanswered.iter();
        let Some(place) = unanswered.position(|burst| is_of(burst, is_write, id)) else {
            return false;
        };
        if place >= self.unanswered.len() || usize::from(self.bridge.stock()) >= self.boxes {
            return false;
        }
        self.bridge.give_back(self.unanswered.remove(place));
        true
    }

    fn refuses_b(&mut self, beat: &BBeat, rule: AxiRule) -> bool {
        tell_b(&mut self.bridge, beat) == Err(rule)
    }

    fn refuses_r(&mut self, beat: &RBeat, rule: AxiRule) -> bool {
        tell_r(&mut self.bridge, beat) == Err(rule)
    }

    /// Whether a read is answered with so many zeros.
    fn reads(&mut self, id: u8, beats: u16) -> bool {
        for beat in 1..=beats {
            if !self.takes_r(&r_beat(id, 0, Okay, beat == beats)) {
                return false;
            }
        }
        true
    }

    /// The oldest unanswered burst is answered with OKAY, and its boxes' zeros: how many steps a memory makes for it.
    fn answers(&mut self) -> u64 {
        let Some(burst) = self.unanswered.first() else {
            return 0;
        };
        if burst.is_write() {
            let (id, beats) = (burst.aw().id, u64::from(burst.w_beats()));
            self.takes_b(&BBeat { id, resp: Okay });
            return beats + 1;
        }
        if burst.is_empty() {
            return 0;
        }
        let (id, beats) = (burst.ar().id, u16::from(burst.ar().len) + 1);
        self.reads(id, beats);
        2 * u64::from(beats)
    }

    /// Each burst that can goes, and each is answered: how many steps bridge and memory make.
    fn drains(&mut self) -> u64 {
        let mut steps = 0u64;
        for _ in 0..1000 {
            let made = if self.sends() { 1 } else { self.answers() };
            if made == 0 {
                return steps;
            }
            steps = steps.saturating_add(made);
        }
        steps
    }

    /// Whether no burst goes.
    fn is_idle(&mut self) -> bool {
        !self.bridge.can_pump() && pump(&mut self.bridge).is_none()
    }

    /// Whether the bridge shows what an event tells. What the memory performs is passed over.
    fn sees(&mut self, event: Event) -> bool {
        match event {
            Data(k, payload, strobes) => match self.unanswered.last() {
                Some(burst) => holds_data(burst, k, payload, strobes),
                None => false,
            },
            Idle => self.is_idle(),
            FirstDone(client, done) => self.bridge.first_done(client) == done,
            InFlight(count) => self.bridge.in_flight() == count,
            Work(work) => self.bridge.work_left() == work,
            CanPump(can) => self.bridge.can_pump() == can,
            Unsent(work) => self.bridge.unsent_work() == work,
            Stock(count) => self.bridge.stock() == count,
            Perform(_, _, _) => true,
            _ => is_replied(&self.reply, event),
        }
    }
}
