//! What passes between the bridge and the memory.
ghost use Rattle.std.specs.Prelude.{◌≡◌, ◌+◌, ◌<◌, ◌≤◌, None, Some, [], length, slice_get, IfSome, IsSome};
ghost use Rattle.bridge_core.specs.Bridge.{after_b_beat, after_pump, after_r_beat, boxes_of, burst_to_send};
ghost use Rattle.subordinate.specs.FreeMemory.{after_b_of, after_r_of, b_of, r_of, with_burst};
ghost use Rattle.world.specs.Inside.{ArePaired};

use axi_beats::{BBeat, RBeat};
use bridge_core::Bridge;
use subordinate::Device;

/// The next burst of the bridge goes to the memory, under this serial.
pub(crate) fn send(bridge: &mut Bridge, device: &mut Device) -> Option<u64>
    requires { ArePaired bridge.old device.old }
    ensures idle { burst_to_send bridge.old.state ≡ None → (result ≡ None) × (bridge.new ≡ bridge.old) × (device.new ≡ device.old) }
    ensures sent { IfSome (burst_to_send bridge.old.state) (λ burst. (result ≡ Some device.old.memory.sent) × (bridge.new.state ≡ after_pump bridge.old.state) × (device.new.memory ≡ with_burst device.old.memory burst)) }
    ensures paired { ArePaired bridge.new device.new }
{
    let burst = bridge.pump_box()?;
    let Ok(serial) = device.send_box(burst) else {
        unreachable!();
    };
    Some(serial)
}

/// The B that an ID may give goes from the memory to the bridge; the box of the write that it closes goes back into stock.
pub(crate) fn give_b(bridge: &mut Bridge, device: &mut Device, id: u8) -> Option<BBeat>
    requires { ArePaired bridge.old device.old }
    ensures answer { result ≡ b_of device.old.memory id }
    ensures nothing { result ≡ None → (bridge.new ≡ bridge.old) × (device.new ≡ device.old) }
    ensures gone { IfSome result (λ beat. (bridge.new.state ≡ after_b_beat bridge.old.state beat) × (device.new.memory ≡ after_b_of device.old.memory id)) }
    ensures paired { ArePaired bridge.new device.new }
{
    let beat = device.answer_b(id)?;
    let Ok(()) = bridge.on_b(&beat) else {
        unreachable!();
    };
    take_back(bridge, device);
    Some(beat)
}

/// The R that an ID may give goes from the memory to the bridge; the box of the read that it closes goes back into stock.
pub(crate) fn give_r(bridge: &mut Bridge, device: &mut Device, id: u8) -> Option<RBeat>
    requires { ArePaired bridge.old device.old }
    ensures answer { result ≡ r_of device.old.memory id }
    ensures nothing { result ≡ None → (bridge.new ≡ bridge.old) × (device.new ≡ device.old) }
    ensures gone { IfSome result (λ beat. (bridge.new.state ≡ after_r_beat bridge.old.state beat) × (device.new.memory ≡ after_r_of device.old.memory id)) }
    ensures paired { ArePaired bridge.new device.new }
{
    let beat = device.answer_r(id)?;
    let Ok(()) = bridge.on_r(&beat) else {
        unreachable!();
    };
    if !beat.last {
        return Some(beat);
    }
    take_back(bridge, device);
    Some(beat)
}

/// The box of a closed burst, if one waits, goes back into the bridge's stock.
fn take_back(bridge: &mut Bridge, device: &mut Device)
    requires room { IfSome (slice_get device.old.closed 0) (λ burst. bridge.old.stock < boxes_of bridge.old.state.requests.config) }
    requires one { length device.old.closed ≤ 1 }
    ensures device { device.new ≡ record device.old { closed = [] } }
    ensures bridge { bridge.new ≡ record bridge.old { stock = bridge.old.stock + length device.old.closed } }
{
    if let Some(burst) = device.take_closed() {
        bridge.give_back(burst);
    }
}
