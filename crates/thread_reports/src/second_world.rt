//! A second world, by which what was received is compared with the stored steps.
ghost use Rattle.std.specs.Prelude.{◌≡◌, ◌⊎◌, ◌<◌, ◌≤◌, ◌^◌, None, Some, length, true, IfErr, IfOk, IfSome};
ghost use Rattle.tl_messages.specs.declared.ABeat.{ABeat};
ghost use Rattle.world_run.specs.Headline.{IsOneAtATime};
ghost use Rattle.world_run.specs.Runs.{answers_of, handed_in, sent_in};
ghost use Rattle.setups.specs.Setups.{SetupLists, lists_of, setup_fault};
ghost use Rattle.world.specs.World.{WorldState, byte_of, in_flight, opening_world};
ghost use Rattle.setups.specs.declared.SetupFault.TheVariants.{NoMemory};
ghost use Rattle.thread_reports.specs.FullHistories.{IsFullHistory};
ghost use Rattle.thread_reports.specs.Mismatches.{IsMismatch};
ghost use Rattle.thread_reports.specs.Reports.{IsReport, items_of};

use crate::Receipts;
use crate::replay::{Replay, first_wrong, none_strayed, replayed};
use std::alloc::Global;
use std::marker::Model;
use tl_messages::{ABeat, ReplyBox};
use world::{Setup, SetupFault, Step, World};

/// A client, and the place in its receipts, at which the history differs.
#[derive(Clone, Copy, Debug, PartialEq, Eq)]
pub struct Mismatch {
    /// The first client by number of whom this is so; 0 where no client shows it.
    pub client: u8,
    /// The first of its receipts that differs, or the place after its last.
    pub index: u32,
}

/// A client as a number that a fault can name.
fn numbered(client: usize) -> u8
    ensures { client < 256 → result ≡ client }
{
    u8::try_from(client).unwrap_or(u8::MAX)
}

/// A second world of a set-up, in which nothing was done yet. The stored steps of a run are made once more in it, and what its
/// workers received and offered is compared with what they do there. All room is taken by `new`; no other call takes memory.
#[derive(Drop)]
pub struct SecondWorld {
    pub(crate) world: World,
    pub(crate) reply: ReplyBox,
}

impl Model for SecondWorld {
    ghost use Rattle.world.specs.Laws.{IsSoundWorld};
    ghost use Rattle.world.specs.World.{WorldState};

    ghost Value = { WorldState };

    ghost view = { λ s. s.world };

    ghost invariant = { λ s. IsSoundWorld s.world };
}

impl SecondWorld {
    /// The opening world of a set-up. Refuses what `world::setup_fault` does, with that fault; its one other error is
    /// NoMemory.
    pub fn new(alloc: Global, setup: &Setup) -> Result<SecondWorld, SetupFault>
        ensures refused { IfSome (setup_fault (lists_of setup.now)) (λ fault. result ≡ Err fault) }
        ensures want { IfErr result (λ fault. (setup_fault (lists_of setup.now) ≡ Some fault) ⊎ (fault ≡ NoMemory)) }
        ensures opens { IfOk result (λ second. second ≡ opening_world (lists_of setup.now)) }
    {
        let world = match World::new(alloc, setup) {
            Ok(world) => world,
            Err(fault) => return Err(fault),
        };
        match ReplyBox::new(alloc) {
            Ok(reply) => Ok(SecondWorld { world, reply }),
            Err(_) => Err(SetupFault::NoMemory),
        }
    }

    /// Makes the stored steps, and answers the world after them where they are a report's. Else answers who differs first, by
    /// number.
    pub fn compared(
        self,
        scripts: &[Vec<ABeat>],
        steps: &[Step],
        receipts: &[Receipts],
    ) -> Result<World, Mismatch>
        ensures mismatch { IfErr result (λ mismatch. length scripts.now ≤ 8 → IsMismatch self steps.now (items_of scripts.now) receipts.now mismatch.client mismatch.index) }
        ensures exact { IfErr result (λ mismatch. (setup : SetupLists) (world : WorldState) → self ≡ opening_world setup → length scripts.now ≤ 8 → length steps.now < 2 ^ 63 → IsReport setup (items_of scripts.now) steps.now receipts.now world → ⊥) }
        ensures report { IfOk result (λ world. (setup : SetupLists) → self ≡ opening_world setup → setup_fault setup ≡ None → length scripts.now ≡ setup.config.clients → IsReport setup (items_of scripts.now) steps.now receipts.now world) }
        ensures one_at_a_time { IfOk result (λ world. (setup : SetupLists) → self ≡ opening_world setup → IsOneAtATime setup steps.now (answers_of (opening_world setup) steps.now) (handed_in (opening_world setup) steps.now) (sent_in (opening_world setup) steps.now) (in_flight world) (byte_of world)) }
    {
        let replay = replayed(self, scripts, receipts, steps);
        if receipts.len() != scripts.len() {
            return Err(Mismatch {
                client: 0,
                index: 0,
            });
        }
        if let Some(client) = first_wrong(&replay.found, scripts, receipts) {
            let index = replay.place_of(client);
            return Err(Mismatch {
                client: numbered(client),
                index,
            });
        }
        if !replay.is_settled() {
            return Err(Mismatch {
                client: 0,
                index: 0,
            });
        }
        let Replay { world, .. } = replay;
        Ok(world)
    }

    /// Whether so many steps are stored, each of which changes the world, and each client's offers begin its script.
    pub fn fills(
        self,
        scripts: &[Vec<ABeat>],
        steps: &[Step],
        receipts: &[Receipts],
        room: u32,
    ) -> bool
        ensures { result ≡ true → (setup : SetupLists) → self ≡ opening_world setup → IsFullHistory setup (items_of scripts.now) room steps.now }
    {
        if steps.len() != room as usize {
            return false;
        }
        let replay = replayed(self, scripts, receipts, steps);
        if !replay.changes {
            return false;
        }
        none_strayed(&replay.found, scripts, receipts)
    }
}
