//! The numbers and names of the rules on replies.
ghost use Rattle.std.specs.Prelude.{◌≡◌};
ghost use Rattle.scoreboard.specs.Names.{reply_rule_name, reply_rule_number};

use crate::ReplyRule;

impl ReplyRule {
    /// The rule's number, from 1 to 8 (this project's profile).
    pub fn number(self) -> u8
        ensures { result ≡ reply_rule_number self }
    {
        self as u8
    }

    /// The rule's name, in capital letters (this project's profile).
    pub fn name(self) -> &'static str
        ensures { result.now ≡ reply_rule_name self }
    {
        match self {
            ReplyRule::Unasked => "UNASKED",
            ReplyRule::Interleaved => "INTERLEAVED",
            ReplyRule::Opcode => "OPCODE",
            ReplyRule::Size => "SIZE",
            ReplyRule::Denied => "DENIED",
            ReplyRule::Corrupt => "CORRUPT",
            ReplyRule::Payload => "PAYLOAD",
            ReplyRule::Unknown => "X",
        }
    }
}
