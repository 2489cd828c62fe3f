//! The rules on a reply's beats (TileLink 1.8, channel D; this project's profile).
ghost use Rattle.std.specs.Prelude.{◌≡◌, ◌↔◌, ◌==◌, ◌||◌, not, MatchOption, Ok, Err};
ghost use Rattle.std.specs.List.{list_any};
ghost use Rattle.tl_messages.specs.Operations.{reply_opcode};
ghost use Rattle.tl_messages.specs.Requests.{request_of};
ghost use Rattle.tl_checker.specs.ReplyRules.{IsReplyTo, reply_fault, wrong_corrupt};

use crate::TlRule;
use tl_messages::{DBeat, Request, beats_of};

/// Whether these are the beats of a reply to a request (TileLink 1.8, channel D; this project's profile). The refusal is
/// the first rule of 11 to 16 that they break. Any number of beats may be asked about.
pub fn check_reply(request: &Request, beats: &[DBeat]) -> Result<(), TlRule>
    ensures answer { MatchOption (reply_fault (request_of request.now) beats.now) (result ≡ Ok tt) (λ rule. result ≡ Err rule) }

    // It refuses none of the replies that are right, beat by beat, and all others.
    ensures exact { (result ≡ Ok tt) ↔ IsReplyTo (request_of request.now) beats.now }
{
    match reply_fault(request, beats) {
        Some(rule) => Err(rule),
        None => Ok(()),
    }
}

/// The first rule that the beats of a reply break, or none.
fn reply_fault(request: &Request, beats: &[DBeat]) -> Option<TlRule>
    ensures { result ≡ reply_fault (request_of request.now) beats.now }
{
    if some_has_other_opcode(beats, request) {
        return Some(TlRule::DOpcode);
    }
    if some_has_other_size(beats, request) {
        return Some(TlRule::DSize);
    }
    if some_has_other_source(beats, request) {
        return Some(TlRule::DSource);
    }
    let has_data = request.operation().reply_has_data();
    if beats.len() != usize::from(beats_of(request.size(), has_data)) {
        return Some(TlRule::DBeats);
    }
    if some_is_denied(beats) && some_is_not_denied(beats) {
        return Some(TlRule::DDenied);
    }
    if some_has_wrong_corrupt(beats) {
        return Some(TlRule::DCorrupt);
    }
    None
}

/// Whether a beat's opcode isn't that of the reply, or its param isn't 0.
fn some_has_other_opcode(beats: &[DBeat], request: &Request) -> bool
    ensures { result ≡ list_any (λ beat. not (beat.opcode == reply_opcode request.now.operation) || not (beat.param == 0)) beats.now }
{
    beats.iter().any(|beat| beat.opcode != request.operation().reply_opcode() || beat.param != 0)
}

fn some_has_other_size(beats: &[DBeat], request: &Request) -> bool
    ensures { result ≡ list_any (λ beat. not (beat.size == request.now.size)) beats.now }
{
    beats.iter().any(|beat| beat.size != request.size())
}

fn some_has_other_source(beats: &[DBeat], request: &Request) -> bool
    ensures { result ≡ list_any (λ beat. not (beat.source == request.now.source)) beats.now }
{
    beats.iter().any(|beat| beat.source != request.source())
}

fn some_is_denied(beats: &[DBeat]) -> bool
    ensures { result ≡ list_any (λ beat. beat.denied) beats.now }
{
    beats.iter().any(|beat| beat.denied)
}

fn some_is_not_denied(beats: &[DBeat]) -> bool
    ensures { result ≡ list_any (λ beat. not beat.denied) beats.now }
{
    beats.iter().any(|beat| !beat.denied)
}

fn some_has_wrong_corrupt(beats: &[DBeat]) -> bool
    ensures { result ≡ list_any wrong_corrupt beats.now }
{
    beats.iter().any(has_wrong_corrupt)
}

/// Whether a beat's corrupt flag can't be right: AccessAckData that is denied is corrupt, and the others never are.
fn has_wrong_corrupt(beat: &DBeat) -> bool
    ensures { result ≡ wrong_corrupt beat.now }
{
    if beat.opcode == 1 {
        beat.denied && !beat.corrupt
    } else {
        beat.corrupt
    }
}
