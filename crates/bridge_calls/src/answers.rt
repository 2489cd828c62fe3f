//! Answers of the model as numbers.
ghost use Rattle.std.specs.Prelude.{◌≡◌, ◌≤◌, slice_get};
ghost use Rattle.axi_beats.specs.Boxes.{w_beats_of};
ghost use Rattle.bridge_calls.specs.Answers.{address_fields, answer_number, answer_payload, burst_address, burst_head, code_of, d_fields, flag_number, reply_fields, reply_payload, resp_number, step_head, step_serial, w_payload, w_strobes};

use axi_beats::{BurstBox, Resp, WBeat};
use tl_messages::{DBeat, ReplyBox};
use world_run::{Answer, Step};

/// Which answer it is.
pub(crate) fn code_of(answer: Answer) -> u64
    ensures { result ≡ code_of answer }
{
    match answer {
        Answer::More => 0,
        Answer::Accepted(_) => 1,
        Answer::NotReady => 2,
        Answer::Exhausted => 3,
        Answer::Refused(_) => 4,
        Answer::NoClient => 5,
        Answer::Sent(_) => 6,
        Answer::Idle => 7,
        Answer::Done => 8,
        Answer::NoSuch => 9,
        Answer::Already => 10,
        Answer::B(_) => 11,
        Answer::R(_) => 12,
        Answer::Nothing => 13,
        Answer::Reply(_) => 14,
    }
}

/// A flag as a number.
fn flag_number(flag: bool) -> u64
    ensures { result ≡ flag_number flag }
{
    if flag {
        return 1;
    }
    0
}

/// A response by its number on the wires (AXI4, A3.4.4).
fn resp_number(resp: Resp) -> u64
    ensures { result ≡ resp_number resp }
{
    match resp {
        Resp::Okay => 0,
        Resp::ExOkay => 1,
        Resp::SlvErr => 2,
        Resp::DecErr => 3,
    }
}

/// The number that belongs to an answer: that of a request, a serial, a rule's number, or ID, response and `last` of a beat.
pub(crate) fn answer_number(answer: Answer) -> u64
    ensures { result ≡ answer_number answer }
{
    match answer {
        Answer::Accepted(number) => number,
        Answer::Sent(serial) => serial,
        Answer::Reply(number) => number,
        Answer::Refused(rule) => u64::from(rule.number()),
        Answer::B(beat) => u64::from(beat.id) + 256 * resp_number(beat.resp),
        Answer::R(beat) => {
            u64::from(beat.id) + 256 * resp_number(beat.resp) + 65_536 * flag_number(beat.last)
        }
        _ => 0,
    }
}

/// The payload that belongs to an answer: that of an R beat.
pub(crate) fn answer_payload(answer: Answer) -> u64
    ensures { result ≡ answer_payload answer }
{
    match answer {
        Answer::R(beat) => beat.payload,
        _ => 0,
    }
}

/// What a step is: its kind, and its beat or ID; 0 where there is none.
pub(crate) fn step_head(step: Option<Step>) -> u64
    ensures { result ≡ step_head step }
{
    match step {
        Some(Step::Pump) => 1,
        Some(Step::Perform(_, beat)) => 2 + 256 * u64::from(beat),
        Some(Step::AnswerB(id)) => 3 + 256 * u64::from(id),
        Some(Step::AnswerR(id)) => 4 + 256 * u64::from(id),
        Some(Step::Offer(..)) | Some(Step::Take(_)) | None => 0,
    }
}

/// The serial of a step that performs a beat; 0 of any other.
pub(crate) fn step_serial(step: Option<Step>) -> u64
    ensures { result ≡ step_serial step }
{
    match step {
        Some(Step::Perform(serial, _)) => serial,
        _ => 0,
    }
}

/// The fields of an address beat, by its channel: 1 for writes, 2 for reads.
fn address_fields(channel: u64, id: u8, len: u8, size: u8, burst: u8) -> u64
    requires { channel ≤ 2 }
    ensures { result ≡ address_fields channel id len size burst }
{
    channel
        + 256 * u64::from(id)
        + 65_536 * u64::from(len)
        + 16_777_216 * u64::from(size)
        + 4_294_967_296 * u64::from(burst)
}

/// The head of a burst; 0 where there is none.
pub(crate) fn burst_head(burst: &BurstBox) -> u64
    ensures { result ≡ burst_head burst.now }
{
    if burst.is_empty() {
        return 0;
    }
    if burst.is_write() {
        let aw = burst.aw();
        return address_fields(1, aw.id, aw.len, aw.size, aw.burst);
    }
    let ar = burst.ar();
    address_fields(2, ar.id, ar.len, ar.size, ar.burst)
}

/// Its address; 0 where there is none.
pub(crate) fn burst_address(burst: &BurstBox) -> u64
    ensures { result ≡ burst_address burst.now }
{
    if burst.is_empty() {
        return 0;
    }
    if burst.is_write() {
        return u64::from(burst.aw().address);
    }
    u64::from(burst.ar().address)
}

/// One of its W beats.
fn data_beat(burst: &BurstBox, k: u32) -> Option<WBeat>
    ensures { result ≡ slice_get (w_beats_of burst.now) k }
{
    if k < u32::from(burst.w_beats()) {
        return Some(burst.w(k as u16));
    }
    None
}

/// The payload of one of its W beats; 0 where there is none.
pub(crate) fn burst_data(burst: &BurstBox, k: u32) -> u64
    ensures { result ≡ w_payload (slice_get (w_beats_of burst.now) k) }
{
    match data_beat(burst, k) {
        Some(beat) => beat.payload,
        None => 0,
    }
}

/// Strobes and `last` of one of its W beats; 0 where there is none.
pub(crate) fn burst_strobes(burst: &BurstBox, k: u32) -> u64
    ensures { result ≡ w_strobes (slice_get (w_beats_of burst.now) k) }
{
    match data_beat(burst, k) {
        Some(beat) => u64::from(beat.strobes) + 256 * flag_number(beat.last),
        None => 0,
    }
}

/// One beat of a reply.
fn reply_beat(reply: &ReplyBox, k: u32) -> Option<DBeat>
    ensures { result ≡ slice_get reply.now k }
{
    if k < u32::from(reply.beats()) {
        return Some(reply.beat(k as u16));
    }
    None
}

/// The fields of a D beat.
fn d_fields(beat: &DBeat) -> u64
    ensures { result ≡ d_fields beat.now }
{
    u64::from(beat.opcode)
        + 256 * u64::from(beat.param)
        + 65_536 * u64::from(beat.size)
        + 16_777_216 * u64::from(beat.source)
        + 4_294_967_296 * flag_number(beat.denied)
        + 1_099_511_627_776 * flag_number(beat.corrupt)
}

/// The fields of one beat of a reply; 0 where there is none.
pub(crate) fn reply_fields(reply: &ReplyBox, k: u32) -> u64
    ensures { result ≡ reply_fields (slice_get reply.now k) }
{
    match reply_beat(reply, k) {
        Some(beat) => d_fields(&beat),
        None => 0,
    }
}

/// The payload of one beat of a reply; 0 where there is none.
pub(crate) fn reply_payload(reply: &ReplyBox, k: u32) -> u64
    ensures { result ≡ reply_payload (slice_get reply.now k) }
{
    match reply_beat(reply, k) {
        Some(beat) => beat.payload,
        None => 0,
    }
}
