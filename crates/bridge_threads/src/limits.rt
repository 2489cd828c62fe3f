//! What a threaded run is refused for before it starts.
ghost use Rattle.std.specs.Prelude.{◌≡◌, length, nat_lt};
ghost use Rattle.std.specs.List.{list_any};
ghost use Rattle.setups.specs.Setups.{lists_of};
ghost use Rattle.thread_reports.specs.Refusals.{is_refused};
ghost use Rattle.thread_reports.specs.Reports.{items_of};

use crate::Limits;
use tl_messages::ABeat;
use world::{Setup, setup_fault};

/// The most beats of a script.
const MOST_BEATS: usize = 4096;

/// The most steps that may be stored.
const MOST_STEPS: u32 = 1_000_000;

/// Whether a run is refused: by its set-up, its scripts, its lists of words or its limits.
pub(crate) fn is_refused(
    setup: &Setup,
    scripts: &[Vec<ABeat>],
    words: &[Vec<u64>],
    limits: Limits,
) -> bool
    ensures { result ≡ is_refused (lists_of setup.now) (items_of scripts.now) (items_of words.now) limits.steps limits.idle }
{
    if setup_fault(setup).is_some() {
        return true;
    }
    if scripts.len() != usize::from(setup.config.clients) {
        return true;
    }
    if has_long(scripts) {
        return true;
    }
    if words.len() < 1 || words.len() > 4 {
        return true;
    }
    limits.steps > MOST_STEPS || limits.steps == 0 || limits.idle == 0
}

/// Whether a script has too many beats.
fn has_long(scripts: &[Vec<ABeat>]) -> bool
    ensures { result ≡ list_any (λ script. nat_lt 4096 (length script)) (items_of scripts.now) }
{
    for script in scripts {
        if script.len() > MOST_BEATS {
            return true;
        }
    }
    false
}
