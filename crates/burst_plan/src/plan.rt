//! The plan of a range of bytes: the bursts that it goes as.
ghost use Rattle.std.specs.Prelude.{◌≡◌, ℕ, List, Option, ◌+◌, ◌%◌, ◌^◌, ◌<◌, ◌≤◌, length, min, Some, slice_get, IsTrue, sum_by};
ghost use Rattle.axi_beats.specs.Transfers.{IsBusWidth};
ghost use Rattle.burst_plan.specs.Pieces.{widest_size};

use crate::Piece;
use std::marker::Model;

/// How `2^size` bytes at an address go over a bus, as bursts by rising address: the pieces of the range. A plain value, in
/// which are kept how many bursts there are, the transfers of each, less one, and the size of a transfer.
#[derive(Clone, Copy, PartialEq, Eq)]
pub struct Plan {
    address: u32,
    max_len: u16,
    count: u16,
    size: u8,
    bus_bytes: u8,
    len: u8,
    transfer_size: u8,
}

impl Model for Plan {
    ghost use Rattle.std.specs.Prelude.{◌-◌, length};
    ghost use Rattle.std.proofs.Common.{sym};
    ghost use Rattle.burst_plan.specs.Pieces.{PlannedRange, beat_size, pieces};
    ghost use Rattle.burst_plan.specs.PlannedTransfers.{IsReckoned, burst_beats};

    ghost Value = { PlannedRange };

    ghost view = { λ p. record { bus_bytes = p.bus_bytes; max_len = p.max_len; address = p.address; size = p.size } };

    ghost inverse = { λ range. record {
      address = range.address;
      max_len = range.max_len;
      count = length (pieces range);
      size = range.size;
      bus_bytes = range.bus_bytes;
      len = burst_beats range - 1;
      transfer_size = beat_size range;
    } };

    ghost inverse_ok = { λ p h i. record {
      address = p.address;
      max_len = p.max_len;
      count = sym h.bursts i;
      size = p.size;
      bus_bytes = p.bus_bytes;
      len = sym h.transfers i;
      transfer_size = sym h.width i;
    } };

    ghost invariant = { λ p. IsReckoned (record { bus_bytes = p.bus_bytes; max_len = p.max_len; address = p.address; size = p.size }) p.count p.len p.transfer_size };
}

/// The size of a transfer: that of the range, where one transfer can carry it, else that of the bus's widest.
fn transfer_size(size: u8, bus_bytes: u8) -> u8
    ensures { result ≡ min size (widest_size bus_bytes) }
{
    let widest: u8 = if bus_bytes == 8 { 3 } else { 2 };
    widest.min(size)
}

impl Plan {
    ghost use Rattle.burst_plan.specs.Pieces.{is_max_len, pieces, IsPlan, IsPlannable};
    ghost use Rattle.burst_plan.specs.PlannedBursts.{AreBytes, PutsGivenBytes, ReadsAreLegal};
    ghost use Rattle.burst_plan.specs.PlannedTransfers.{HoldsEachByteOnce};

    /// The plan of `2^size` bytes, at most 4,096, at an address that is a multiple of their number. A burst has at most
    /// `max_len` transfers, a power of two from 1 to 256, and the bus has `bus_bytes` bytes, 4 or 8.
    pub fn new_of(address: u32, size: u8, max_len: u16, bus_bytes: u8) -> Plan
        requires size { size ≤ 12 }
        requires aligned { address % 2 ^ size ≡ 0 }
        requires max_len { IsTrue (is_max_len max_len) }
        requires bus { IsBusWidth bus_bytes }
        ensures value { result ≡ record { bus_bytes = bus_bytes; max_len = max_len; address = address; size = size } }
        ensures plan { IsPlan result (pieces result) }
        ensures bytes { HoldsEachByteOnce result }
        ensures reads { ReadsAreLegal result }
        ensures writes { (bytes : List (Option ℕ)) → AreBytes bytes → PutsGivenBytes result bytes }
    {
        let transfer_size = transfer_size(size, bus_bytes);
        let transfers = 1u16 << (size - transfer_size);
        let each = transfers.min(max_len);
        Plan {
            address,
            max_len,
            count: transfers >> each.trailing_zeros(),
            size,
            bus_bytes,
            len: (each - 1) as u8,
            transfer_size,
        }
    }

    /// The address of the range's first byte.
    pub fn address(&self) -> u32
        ensures { result ≡ self.now.address }
    {
        self.address
    }

    /// The number of the range's bytes, as a power of two; at most 12.
    pub fn size(&self) -> u8
        ensures value { result ≡ self.now.size }
        ensures bound { result ≤ 12 }
    {
        self.size
    }

    /// The width of the bus in bytes, 4 or 8.
    pub fn bus_bytes(&self) -> u8
        ensures value { result ≡ self.now.bus_bytes }
        ensures range { IsPlannable self.now }
    {
        self.bus_bytes
    }

    /// How many bursts there are, from 1 to 1,024.
    pub fn bursts(&self) -> u16
        ensures count { result ≡ length (pieces self.now) }
        ensures some { 1 ≤ result }
        ensures range { IsPlannable self.now }
    {
        self.count
    }

    /// How many transfers all bursts have together, from 1 to 1,024.
    pub fn beats(&self) -> u16
        ensures { result ≡ sum_by (λ piece. piece.len + 1) (pieces self.now) }
    {
        (1u16 << self.size) >> self.transfer_size
    }

    /// Burst `k`, from 0.
    pub fn burst(&self, k: u16) -> Piece
        requires { k < length (pieces self.now) }
        ensures piece { slice_get (pieces self.now) k ≡ Some result }
        ensures range { IsPlannable self.now }
    {
        let bytes = (u32::from(self.len) + 1) << self.transfer_size;
        Piece {
            address: self.address + u32::from(k) * bytes,
            len: self.len,
            size: self.transfer_size,
        }
    }
}
