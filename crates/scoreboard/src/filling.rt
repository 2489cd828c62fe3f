//! Where a memory can be filled that a set-up lists.
ghost use Rattle.std.specs.Prelude.{◌≡◌, ◌+◌, ◌/◌};
ghost use Rattle.score_setup.specs.ScoreSetups.{lists_of};
ghost use Rattle.serial_memory.specs.SerialMemory.{can_fill, is_good_byte};
ghost use Rattle.setups.specs.Setups.{faults_of};

use score_setup::ScoreSetup;
use sparse_memory::is_good_page;

/// Whether the byte that lies so many behind an address is of a good page of a set-up.
fn is_good_byte(setup: &ScoreSetup, address: u32, k: usize) -> bool
    ensures { result ≡ is_good_byte (faults_of (lists_of setup.now)) (address + k) }
{
    let Ok(k) = u32::try_from(k) else {
        return false;
    };
    let Some(address) = address.checked_add(k) else {
        return false;
    };
    is_good_page(setup.pages.as_slice(), address / 4096)
}

/// Whether so many bytes from an address on are all of good pages of a set-up.
pub fn can_fill(setup: &ScoreSetup, address: u32, count: usize) -> bool
    ensures { result ≡ can_fill (faults_of (lists_of setup.now)) address count }
{
    (0..count).all(|k| is_good_byte(setup, address, k))
}
