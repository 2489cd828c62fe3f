//! The limits of a bridge between TileLink clients and an AXI4 port (this project's profile).
#![tactic(auto)]

ghost use Rattle.std.specs.Prelude.{◌≡◌};
ghost use Rattle.bus_words.specs.Lanes.{is_between};
ghost use Rattle.burst_plan.specs.Pieces.{is_max_len};
ghost use Rattle.config.specs.Configs.{is_valid, port_of};

use tl_checker::Level;

/// The limits of a bridge (this project's profile).
#[derive(Clone, Copy, Debug, PartialEq, Eq)]
pub struct Config {
    /// How many clients there are, 1 to 8.
    pub clients: u8,
    /// How many live requests a client may have, 1 to 8.
    pub quota: u8,
    /// How many AXI4 IDs there are, 1 to 16.
    pub ids: u8,
    /// How many outstanding bursts an ID may have on each side, 1 to 4.
    pub depth: u8,
    /// The most transfers of a burst: a power of two, 1 to 256; at least 2 on a bus of 4 bytes.
    pub max_len: u16,
    /// The largest TileLink size, 3 to 12.
    pub max_size: u8,
    /// The level of each client's port; those past `clients` play no part.
    pub levels: [Level; 8],
    /// The width of the AXI4 bus in bytes, 8 or 4.
    pub axi_bytes: u8,
}

impl Config {
    /// Whether each limit is in its range.
    pub fn is_valid(&self) -> bool
        ensures { result ≡ is_valid self.now }
    {
        is_between(1, 8, self.clients)
            && is_between(1, 8, self.quota)
            && is_between(1, 16, self.ids)
            && is_between(1, 4, self.depth)
            && is_max_len(self.max_len)
            && is_between(3, 12, self.max_size)
            && (self.axi_bytes == 8 || self.axi_bytes == 4 && self.max_len >= 2)
    }

    /// The level of a client's port; TL-UL where there can be no such client.
    pub fn level_of(&self, client: u8) -> Level
        ensures { result ≡ (port_of self.now client).level }
    {
        match self.levels.get(usize::from(client)) {
            Some(level) => *level,
            None => Level::Ul,
        }
    }
}

fn is_between(lowest: u8, highest: u8, n: u8) -> bool
    ensures { result ≡ is_between lowest highest n }
{
    lowest <= n && n <= highest
}

fn is_max_len(n: u16) -> bool
    ensures { result ≡ is_max_len n }
{
    matches!(n, 1 | 2 | 4 | 8 | 16 | 32 | 64 | 128 | 256)
}
