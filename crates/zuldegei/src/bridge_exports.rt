//! The model of the bridge: `tlbridge_open` makes one, and `tlbridge_call` takes the words of calls, which C puts together.
ghost use Rattle.std.specs.Prelude.{IfSome};
ghost use Rattle.std.specs.Borrow.{full_share, sem};
ghost use Rattle.std.specs.Ptr.{lies_at};
ghost use base.Fml.{fex};
ghost use Rattle.bridge_calls.specs.HandleRuns.{IsNew};
ghost use Rattle.bridge_calls.specs.Handles.{Called, HeldBridge};
ghost use Rattle.bridge_calls.specs.contracts.handle.BridgeHandle.{the_row};
ghost use Rattle.zuldegei.specs.Opened.{HandedOut};

use bridge_calls::BridgeHandle;
use std::alloc::Global;

/// A model without a set-up, if there is memory for it.
fn made(alloc: Global) -> Option<Box<BridgeHandle>>
    ensures { IfSome result (λ handle. IsNew handle.value) }
{
    Box::new(alloc, BridgeHandle::new(alloc)).ok()
}

/// Makes a model without a set-up, and hands out where it lies. The answer is whether there was memory.
#[unsafe(no_mangle)]
pub extern "C" fn tlbridge_open(alloc: Global, out: &mut *mut u8) -> bool
    ensures* { sem 𝓛 (HandedOut the_row IsNew result out.old out.new) }
{
    let Some(handle) = made(alloc) else {
        return false;
    };
    *out = Box::into_raw(handle) as *mut u8;
    true
}

/// Takes a word of a call.
fn called(handle: &mut BridgeHandle, word: u64) -> u64
    ensures { Called handle.old word handle.new result }
{
    handle.call(word)
}

/// Takes a word of a call to the model that lies there. The answer to all but a call's last word is that more are wanted.
#[unsafe(no_mangle)]
pub unsafe extern "C" fn tlbridge_call(at: *mut u8, word: u64) -> u64
    ghost old: { HeldBridge }
    requires* { sem 𝓛 (lies_at the_row full_share at old) }
    ensures* { sem 𝓛 (fex HeldBridge (λ new. fex (Called old word new result) (λ done. lies_at the_row full_share at new))) }
{
    called(&mut *(at as *mut BridgeHandle), word)
}
