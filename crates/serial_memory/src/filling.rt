//! What a memory began with, as a tester says it, byte by byte.
ghost use Rattle.std.specs.Prelude.{◌≡◌, ◌+◌, ◌-◌, ◌/◌, ◌^◌, ◌<◌, ◌&&◌, ◌==◌, ℕ, true, length, not, if◌then◌else◌, OnErr, OnOk};
ghost use Rattle.sparse_memory.specs.SparseMemory.{bytes_in, doubts_in, faults_in, has_room};
ghost use Rattle.serial_memory.specs.InsideSerial.{IsReservedAlone};
ghost use Rattle.serial_memory.specs.SerialMemory.{can_fill, is_good_byte, known_from, some_lacks_room, with_filled};

use data_unit::{full_mask, place};
use sparse_memory::SparseMemory;
use std::alloc::AllocError;

/// Whether the byte that lies so many behind an address is of a good page.
fn is_good_byte(pages: &SparseMemory, address: u32, k: usize) -> bool
    ensures { result ≡ is_good_byte (faults_in pages.now) (address + k) }
{
    let Ok(k) = u32::try_from(k) else {
        return false;
    };
    let Some(address) = address.checked_add(k) else {
        return false;
    };
    pages.is_good(address)
}

/// Whether so many bytes from an address on are all of good pages.
pub(crate) fn can_fill(pages: &SparseMemory, address: u32, count: usize) -> bool
    ensures { result ≡ can_fill (faults_in pages.now) address count }
{
    (0..count).all(|k| is_good_byte(pages, address, k))
}

/// The address so many bytes behind another.
fn address_behind(address: u32, k: usize) -> u32
    requires { address + k < 2 ^ 32 }
    ensures { result ≡ address + k }
{
    address + k as u32
}

/// Makes room for the pages of so many bytes from an address on. The one error is that memory was refused for one that has none.
pub(crate) fn reserve_each(
    pages: &mut SparseMemory,
    address: u32,
    count: usize,
) -> Result<(), AllocError>
    requires { can_fill (faults_in pages.old) address count ≡ true }
    ensures rest { IsReservedAlone pages.old pages.new }
    ensures room { OnOk result ((k : ℕ) → k < count → has_room pages.new ((address + k) / 4096) ≡ true) }
    ensures cause { OnErr result (some_lacks_room (has_room pages.old) address count ≡ true) }
{
    for k in 0..count {
        pages.reserve(address_behind(address, k))?;
    }
    Ok(())
}

/// Puts a byte, which is known from now on. Its page has room.
fn put_byte(pages: &mut SparseMemory, address: u32, byte: u8)
    requires room { has_room pages.old (address / 4096) ≡ true }
    ensures faults { faults_in pages.new ≡ faults_in pages.old }
    ensures bytes { bytes_in pages.new ≡ (λ x. if x == address then byte else bytes_in pages.old x) }
    ensures doubts { doubts_in pages.new ≡ (λ x. not (x == address) && doubts_in pages.old x) }
    ensures rooms { (page : ℕ) → has_room pages.new page ≡ has_room pages.old page }
{
    let strobes = full_mask(address, 0);
    pages.put_word(address, place(u64::from(byte), address, 0), strobes);
    pages.put_doubts(address, 0, strobes);
}

/// Puts bytes from an address on, which are known from now on. Their pages have room.
pub(crate) fn put_each(pages: &mut SparseMemory, address: u32, bytes: &[u8])
    requires good { can_fill (faults_in pages.old) address (length bytes.now) ≡ true }
    requires room { (k : ℕ) → k < length bytes.now → has_room pages.old ((address + k) / 4096) ≡ true }
    ensures faults { faults_in pages.new ≡ faults_in pages.old }
    ensures bytes { bytes_in pages.new ≡ with_filled (bytes_in pages.old) address bytes.now }
    ensures doubts { doubts_in pages.new ≡ known_from (doubts_in pages.old) address (length bytes.now) }
    ensures rooms { (page : ℕ) → has_room pages.new page ≡ has_room pages.old page }
{
    for k in 0..bytes.len() {
        put_byte(pages, address_behind(address, k), bytes[k]);
    }
}
