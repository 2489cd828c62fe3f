//! What bridge and memory can do by themselves, and a drain.
ghost use Rattle.std.specs.Prelude.{◌≡◌, ◌<◌, ◌≤◌, [], None, Some, length, slice_get};
ghost use Rattle.subordinate.specs.FreeMemory.{ids_with_b, ids_with_r};
ghost use Rattle.world.specs.Choices.{answers_enabled, goes_on, is_sent};

use crate::{Answer, Step, World};
use subordinate::Device;

/// IDs of the AXI4 port are below this.
const IDS: u8 = 16;

impl World {
    ghost use Rattle.bridge_core.specs.Bridge.{burst_to_send};
    ghost use Rattle.subordinate.specs.FreeMemory.{first_with_b, first_with_r};
    ghost use Rattle.world.specs.Choices.{IsPerformed, LeadsTo};
    ghost use Rattle.world.specs.World.{drained, enabled};
    ghost use Rattle.world.specs.Laws.{IsDrained, IsSoundWorld};

    /// How many steps bridge and memory can make by themselves.
    pub fn choices(&self) -> u32
        ensures { result ≡ length (enabled self.now) }
    {
        let pumps = u32::from(self.bridge.can_pump());
        let answers = u32::from(count_b(&self.device)) + u32::from(count_r(&self.device));
        pumps + self.device.pending() + answers
    }

    /// Step k of these, from 0: Pump where a request is ready, Perform by rising serial and beat, AnswerB by rising ID,
    /// AnswerR by rising ID.
    pub fn choose(&self, k: u32) -> Step
        requires { k < length (enabled self.now) }
        ensures { slice_get (enabled self.now) k ≡ Some result }
    {
        let pumps = u32::from(self.bridge.can_pump());
        if k < pumps {
            return Step::Pump;
        }
        let performs = self.device.pending();
        let place = k - pumps;
        if place < performs {
            let (serial, beat) = self.device.pending_at(place);
            return Step::Perform(serial, beat);
        }
        answer_at(&self.device, place - performs)
    }

    /// Makes the first of these steps until there is none, and answers how many steps these were. It takes no reply. With each
    /// of them the work left is one less; with the last read of an atomic that failed, the work of its write goes too.
    pub fn drain(&mut self) -> u64
        ensures answer { result ≡ (drained self.old).0 }
        ensures state { self.new ≡ (drained self.old).1 }

        // Then nothing is enabled, no work is left and all that was accepted is done.
        ensures drains { IsDrained self.old result self.new }

        // Each of these steps is the first that is enabled in a world that keeps the laws.
        ensures leads { LeadsTo self.old result self.new }
        ensures laws { IsSoundWorld self.new }
    {
        let mut made = 0;
        loop {
            let more = self.make_round();
            if more == 0 {
                return made;
            }
            made += more;
        }
    }

    /// Makes the first of these steps, each in its turn: all bursts that may go, all beats that wait, and answers as long as
    /// none makes a request ready.
    fn make_round(&mut self) -> u64
        ensures leads { LeadsTo self.old result self.new }
        ensures ends { result ≡ 0 → enabled self.new ≡ [] }
        ensures laws { IsSoundWorld self.new }
    {
        let pumps = self.pump_all();
        let performs = self.perform_all();
        let answers = self.answer_some();
        pumps + performs + answers
    }

    /// Makes a Pump as long as a request is ready.
    fn pump_all(&mut self) -> u64
        ensures leads { LeadsTo self.old result self.new }
        ensures idle { burst_to_send self.new.bridge ≡ None }
    {
        let mut made = 0;
        while is_sent(&self.pump()) {
            made += 1;
        }
        made
    }

    /// Performs all beats that wait, where no request is ready: none is after it.
    fn perform_all(&mut self) -> u64
        requires { burst_to_send self.old.bridge ≡ None }
        ensures leads { LeadsTo self.old result self.new }
        ensures performed { IsPerformed self.new }
    {
        let mut made = 0;
        while self.perform_first() {
            made += 1;
        }
        made
    }

    /// Gives the first answer that may come; where that is an R, those after it too, up to the last of a burst.
    fn answer_some(&mut self) -> u64
        requires { IsPerformed self.old }
        ensures leads { LeadsTo self.old result self.new }
        ensures ends { result ≡ 0 → enabled self.new ≡ [] }
        ensures laws { IsSoundWorld self.new }
    {
        let Some(id) = self.first_b() else {
            return self.read_on();
        };
        self.answer_b(id);
        1
    }

    /// Gives R beats up to the last of a burst, where no other step is enabled: none is before that.
    fn read_on(&mut self) -> u64
        requires performed { IsPerformed self.old }
        requires written { first_with_b self.old.memory ≡ None }
        ensures leads { LeadsTo self.old result self.new }
        ensures ends { result ≡ 0 → enabled self.new ≡ [] }
        ensures laws { IsSoundWorld self.new }
    {
        let mut made = 0;
        while let Some(id) = self.first_r() {
            let answer = self.answer_r(id);
            made += 1;
            if !goes_on(&answer) {
                return made;
            }
        }
        made
    }

    /// The smallest ID that may give a B.
    fn first_b(&self) -> Option<u8>
        ensures { result ≡ first_with_b self.now.memory }
    {
        self.device.first_b()
    }

    /// The smallest ID that may give an R.
    fn first_r(&self) -> Option<u8>
        ensures first { result ≡ first_with_r self.now.memory }
        ensures laws { IsSoundWorld self.now }
    {
        self.device.first_r()
    }
}

/// Whether a burst went.
fn is_sent(answer: &Answer) -> bool
    ensures { result ≡ is_sent answer.now }
{
    matches!(answer, Answer::Sent(_))
}

/// Whether an R came of whose burst more come.
fn goes_on(answer: &Answer) -> bool
    ensures { result ≡ goes_on answer.now }
{
    match answer {
        Answer::R(beat) => !beat.last,
        _ => false,
    }
}

/// How many IDs may give a B.
fn count_b(device: &Device) -> u8
    ensures count { result ≡ length (ids_with_b device.now.memory) }
    ensures most { result ≤ 16 }
{
    (0..IDS).filter(|id| device.can_b(*id)).count() as u8
}

/// How many IDs may give an R.
fn count_r(device: &Device) -> u8
    ensures count { result ≡ length (ids_with_r device.now.memory) }
    ensures most { result ≤ 16 }
{
    (0..IDS).filter(|id| device.can_r(*id)).count() as u8
}

/// Answer k of those that may come, from 0: AnswerB by rising ID, then AnswerR by rising ID.
fn answer_at(device: &Device, k: u32) -> Step
    requires { k < length (answers_enabled device.now.memory) }
    ensures { slice_get (answers_enabled device.now.memory) k ≡ Some result }
{
    let bs = u32::from(count_b(device));
    if k < bs {
        return Step::AnswerB(id_with_b(device, k));
    }
    Step::AnswerR(id_with_r(device, k - bs))
}

/// ID k of those that may give a B, from 0 and by rising ID.
fn id_with_b(device: &Device, k: u32) -> u8
    requires { k < length (ids_with_b device.now.memory) }
    ensures { slice_get (ids_with_b device.now.memory) k ≡ Some result }
{
    let mut left = k;
    for id in 0..IDS {
        if device.can_b(id) {
            if left == 0 {
                return id;
            }
            left -= 1;
        }
    }
    unreachable!()
}

/// ID k of those that may give an R, from 0 and by rising ID.
fn id_with_r(device: &Device, k: u32) -> u8
    requires { k < length (ids_with_r device.now.memory) }
    ensures { slice_get (ids_with_r device.now.memory) k ≡ Some result }
{
    let mut left = k;
    for id in 0..IDS {
        if device.can_r(id) {
            if left == 0 {
                return id;
            }
            left -= 1;
        }
    }
    unreachable!()
}
