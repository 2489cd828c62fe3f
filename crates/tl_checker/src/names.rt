//! The rules' numbers and names.
ghost use Rattle.std.specs.Prelude.{◌≡◌};
ghost use Rattle.tl_checker.specs.Names.{number_of, name_of};

use crate::TlRule;

impl TlRule {
    /// The rule's number, from 1 to 16.
    pub fn number(self) -> u8
        ensures { result ≡ number_of self }
    {
        self as u8
    }

    /// The rule's name, in capitals, as `SOURCE_BUSY`.
    pub fn name(self) -> &'static str
        ensures { result.now ≡ name_of self }
    {
        match self {
            TlRule::Opcode => "OPCODE",
            TlRule::Level => "LEVEL",
            TlRule::Size => "SIZE",
            TlRule::AtomicSize => "ATOMIC_SIZE",
            TlRule::Align => "ALIGN",
            TlRule::Param => "PARAM",
            TlRule::Mask => "MASK",
            TlRule::Corrupt => "CORRUPT",
            TlRule::SourceBusy => "SOURCE_BUSY",
            TlRule::BurstControl => "BURST_CONTROL",
            TlRule::DOpcode => "D_OPCODE",
            TlRule::DSize => "D_SIZE",
            TlRule::DSource => "D_SOURCE",
            TlRule::DBeats => "D_BEATS",
            TlRule::DDenied => "D_DENIED",
            TlRule::DCorrupt => "D_CORRUPT",
        }
    }
}
