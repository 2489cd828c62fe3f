//! A world that is driven one step at a time, with the order of acceptance in the contract.
ghost use Rattle.std.specs.Prelude.{◌≡◌, ◌⊎◌, Some, IfErr, IfOk, IfSome, IsTrue, if◌then◌else◌};
ghost use Rattle.world.specs.Laws.{IsSoundWorld, TakeAll};
ghost use Rattle.setups.specs.Setups.{faults_of, lists_of, setup_fault};
ghost use Rattle.world.specs.World.{is_reply, leaves_all, next, opening_world};
ghost use Rattle.setups.specs.declared.SetupFault.TheVariants.{NoMemory};
ghost use Rattle.world_run.specs.InOrder.{IsForeseen, KeepsOrder};
ghost use Rattle.world_run.specs.Serial.{Order};

use std::alloc::Global;
use tl_messages::ReplyBox;
use world::{Answer, Setup, SetupFault, Step, World};

/// The opening world of a set-up, as `World::new` makes it: it is in order, whatever requests are to come.
///
/// Refuses what `setup_fault` does, with that fault. The one other error is that memory was refused.
pub fn opened(alloc: Global, setup: &Setup) -> Result<World, SetupFault>
    ensures refused { IfSome (setup_fault (lists_of setup.now)) (λ fault. result ≡ Err fault) }
    ensures want { IfErr result (λ fault. (setup_fault (lists_of setup.now) ≡ Some fault) ⊎ (fault ≡ NoMemory)) }
    ensures opens { IfOk result (λ world. world ≡ opening_world (lists_of setup.now)) }
    ensures laws { IfOk result IsSoundWorld }

    // It is in order beside any requests to come.
    ensures order { IfOk result (λ world. (order : Order) → order.faults ≡ faults_of (lists_of setup.now) → order.regions ≡ (lists_of setup.now).regions → KeepsOrder order world) }
{
    World::new(alloc, setup)
}

/// One step of a world, as `World::step` makes it: a world in order is in order after it.
///
/// The requests of the order are all that are accepted in the end. Of a step that makes a request accepted it has to be the
/// one of its number among them; of every other step nothing is asked.
pub fn ordered_step(world: &mut World, step: &Step, reply: &mut ReplyBox) -> Answer
    ensures answer { result ≡ (next world.old step.now).answer }
    ensures state { world.new ≡ (next world.old step.now).state }
    ensures reply { reply.new ≡ (if is_reply result then (next world.old step.now).reply else reply.old) }
    ensures kept { IsTrue (leaves_all result) → world.new ≡ world.old }

    // Bridge and memory agree, before it as after it, and neither refuses what the other hands it.
    ensures laws_before { IsSoundWorld world.old }
    ensures laws { IsSoundWorld world.new }
    ensures take_all { TakeAll world.old }

    // Memory, open bursts and gathered replies stay those of the accepted requests carried out one at a time.
    ensures order { (order : Order) → IsForeseen order world.old step.now → KeepsOrder order world.old → KeepsOrder order world.new }
{
    world.step(step, reply)
}
