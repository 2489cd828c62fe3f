//! What was gathered for a reply.
ghost use Rattle.std.specs.Prelude.{◌≡◌, ◌<◌, ◌≤◌, ◌^◌, [], length, map, replicate, Some, IfOk, IfSome};
ghost use Rattle.std.specs.List.{range_with_len};
ghost use Rattle.std.specs.Vec.{vec_capacity, vec_len};
ghost use Rattle.axi_beats.specs.Responses.{is_decerr};
ghost use Rattle.axi_beats.specs.Transfers.{IsBusWidth};
ghost use Rattle.data_unit.specs.Words.{bytes_of};
ghost use Rattle.responses.specs.Gathered.{half_of_read, holds_number, with_payload, word_of_read, word_after, words_of};
ghost use Rattle.responses.specs.Inside.{bare_beat, word_lanes, word_beat, word_beat_at};

use axi_beats::{RBeat, Resp};
use bus_words::lanes_between;
use data_unit::{cut, merge};
use std::alloc::{AllocError, Global};
use std::marker::Model;
use tl_messages::{DBeat, MAX_BEATS, Operation, ReplyBox, Request, beats_of};

/// What a reply needs of its request.
#[derive(Clone, Copy)]
struct Outline {
    operation: Operation,
    size: u8,
    source: u8,
    address: u32,
}

impl Outline {
    /// How many words the reply has: one for each beat with data.
    fn words(&self) -> u16
        requires { self.now.size ≤ 12 }
        ensures value { result ≡ words_of self.now }
        ensures most { result ≤ 512 }
    {
        if self.operation.reply_has_data() {
            beats_of(self.size, true)
        } else {
            0
        }
    }

    /// On a bus of four bytes, which half a read brings, counted from the lower half of the first word: of eight bytes or
    /// more each half in its turn, of fewer the one that the address is in.
    fn half_of_read(&self, place: u16) -> u16
        ensures { result ≡ half_of_read self.now place }
    {
        if self.size >= 3 {
            place
        } else {
            (self.address % 8 / 4) as u16
        }
    }

    /// The word that a read belongs to.
    fn word_of_read(&self, bus_bytes: u8, place: u16) -> u16
        ensures { result ≡ word_of_read bus_bytes self.now place }
    {
        if bus_bytes == 4 {
            self.half_of_read(place) / 2
        } else {
            place
        }
    }

    /// A word after the payload of one of its reads.
    fn with_payload(&self, bus_bytes: u8, place: u16, payload: u64, word: u64) -> u64
        ensures { result ≡ with_payload bus_bytes self.now place payload word }
    {
        const HALF: u64 = 1 << 32;
        if bus_bytes != 4 {
            return payload;
        }
        if self.half_of_read(place) % 2 == 0 {
            payload % HALF + word / HALF % HALF * HALF
        } else {
            word % HALF + payload % HALF * HALF
        }
    }

    /// A word after one of its reads: from SLVERR on it isn't given.
    fn word_after(&self, bus_bytes: u8, place: u16, beat: &RBeat, word: Option<u64>) -> Option<u64>
        ensures { result ≡ word_after bus_bytes self.now place beat.now word }
    {
        match (beat.resp, word) {
            (Resp::SlvErr, _) | (_, None) => None,
            (_, Some(word)) => Some(self.with_payload(bus_bytes, place, beat.payload, word)),
        }
    }

    /// Whether the range is one number's: at most eight bytes, at a multiple of how many they are.
    fn holds_number(&self) -> bool
        ensures { result ≡ holds_number self.now }
    {
        self.size <= 3 && self.address % (1u32 << self.size) == 0
    }

    /// A beat of the reply that shows no data.
    fn bare_beat(&self, denied: bool, corrupt: bool) -> DBeat
        ensures { result ≡ bare_beat self.now denied corrupt }
    {
        DBeat {
            opcode: self.operation.reply_opcode(),
            param: 0,
            size: self.size,
            source: self.source,
            denied,
            payload: 0,
            corrupt,
        }
    }

    /// The lanes of the range in word k of it: in the first those from the address on, up to the range's last; in each
    /// further one all.
    fn word_lanes(&self, k: usize) -> u8
        requires { self.now.size ≤ 12 }
        ensures { result ≡ word_lanes self.now k }
    {
        if k > 0 {
            return 0xff;
        }
        let lowest = self.address % 8;
        let highest = (lowest + (1 << self.size) - 1).min(7);
        lanes_between(lowest as u8, highest as u8)
    }

    /// The beat of a word, of which these lanes are shown.
    fn word_beat(&self, denied: bool, lanes: u8, word: Option<u64>) -> DBeat
        ensures { result ≡ word_beat self.now denied lanes word }
    {
        match word {
            Some(word) if !denied => DBeat {
                payload: merge(0, word, lanes),
                ..self.bare_beat(denied, false)
            },
            _ => self.bare_beat(denied, true),
        }
    }
}

/// Becomes so many words, all zero, for which there is room.
fn fill(words: &mut Vec<Option<u64>>, count: u16)
    requires { count ≤ vec_capacity words.old }
    ensures items { words.new.items ≡ replicate count (Some 0) }
    ensures capacity { vec_capacity words.old ≤ vec_capacity words.new }
{
    words.clear();
    words.resize(usize::from(count), Some(0)).unwrap();
}

/// Whether a response to a read denies the whole request.
fn denies_read(resp: Resp) -> bool
    ensures { result ≡ is_decerr resp }
{
    matches!(resp, Resp::DecErr)
}

/// What the memory's answers to one request tell of its reply (this project's profile). All its room is taken by `new`; no
/// other call takes memory.
pub struct Gather {
    outline: Outline,
    bus_bytes: u8,
    came: u16,
    denied: bool,
    words: Vec<Option<u64>>,
}

impl Model for Gather {
    ghost use Rattle.std.specs.Prelude.{◌≤◌, ◌≡◌};
    ghost use Rattle.std.specs.Vec.{vec_len, vec_capacity};
    ghost use Rattle.axi_beats.specs.Transfers.{IsBusWidth};
    ghost use Rattle.responses.specs.Gathered.{GatherState, words_of};

    ghost Value = { GatherState };

    ghost view = { λ g. record {
      bus_bytes = g.bus_bytes;
      outline = g.outline;
      gathering = record { came = g.came; denied = g.denied; words = g.words.items };
    } };

    ghost invariant = { λ g. (512 ≤ vec_capacity g.words) × (vec_len g.words ≡ words_of g.outline)
        × (g.outline.size ≤ 12) × IsBusWidth g.bus_bytes };
}

// Written out, so that what lets go of one calls this, and proves nothing of its parts.
impl Drop for Gather {
    fn drop(self) {
        let Gather {
            outline: _,
            bus_bytes: _,
            came: _,
            denied: _,
            words: _,
        } = self;
    }
}

impl Gather {
    ghost use Rattle.tl_messages.specs.Requests.{WholeRequest, request_of};
    ghost use Rattle.responses.specs.Answers.{IsNumberSeen, ShowsAnswers};
    ghost use Rattle.responses.specs.Gathered.{after_b, after_r, gathered, gathering_of, old_value, opening_gather, outline_of, reads_of};
    ghost use Rattle.responses.specs.RightReplies.{ShowsReply};
    ghost use Rattle.responses.specs.Shown.{shown};

    /// For a bus of `bus_bytes` bytes, 4 or 8, with the room for any reply. Until `start` it stands as though begun with a
    /// denied Put of one byte at address 0 of source 0.
    ///
    /// The one error is that memory was refused.
    pub fn new(alloc: Global, bus_bytes: u8) -> Result<Self, AllocError>
        requires { IsBusWidth bus_bytes }
        ensures { IfOk result (λ gather. gather ≡ opening_gather bus_bytes) }
    {
        let words = Vec::with_capacity(alloc, MAX_BEATS)?;
        let outline = Outline {
            operation: Operation::PutFull,
            size: 0,
            source: 0,
            address: 0,
        };
        Ok(Gather {
            outline,
            bus_bytes,
            came: 0,
            denied: true,
            words,
        })
    }

    /// Begins with a request; it is denied from the start where it sends no bursts because no answer could make it right.
    /// What was gathered before is forgotten.
    pub fn start(&mut self, request: &Request, denied: bool)
        ensures { self.new ≡ record self.old {
          outline = outline_of (request_of request.now);
          gathering = gathering_of (outline_of (request_of request.now)) denied;
        } }
    {
        self.outline = Outline {
            operation: request.operation(),
            size: request.size(),
            source: request.source(),
            address: request.address(),
        };
        self.came = 0;
        self.denied = denied;
        fill(&mut self.words, self.outline.words());
    }

    /// Takes the response to a write: one other than OKAY denies the request.
    pub fn on_b(&mut self, resp: Resp)
        ensures { self.new ≡ record self.old { gathering = after_b resp self.old.gathering } }
    {
        self.denied |= !matches!(resp, Resp::Okay);
    }

    /// Takes a read beat at its place: the number of its transfer among those of the request's read, from 0 by rising
    /// address. From SLVERR on the bytes of its word aren't given, and DECERR denies the whole request. The count of reads
    /// that came stops at their number.
    pub fn on_r(&mut self, beat: &RBeat, place: u16)
        requires { place < reads_of self.old.bus_bytes self.old.outline }
        ensures { self.new ≡ record self.old { gathering = after_r self.old.bus_bytes self.old.outline beat.now place self.old.gathering } }
    {
        let outline = self.outline;
        let at = usize::from(outline.word_of_read(self.bus_bytes, place));
        self.came = self.came.saturating_add(1).min(self.reads());
        self.denied |= denies_read(beat.resp);
        self.words[at] = outline.word_after(self.bus_bytes, place, beat, self.words[at]);
    }

    /// How many read transfers the request has: none where its reply has no data.
    pub fn reads(&self) -> u16
        ensures { result ≡ reads_of self.now.bus_bytes self.now.outline }
    {
        if self.outline.operation.reply_has_data() {
            let width: u8 = if self.bus_bytes == 8 { 3 } else { 2 };
            ((1u16 << self.outline.size) >> width).max(1)
        } else {
            0
        }
    }

    /// How many read beats came since the start: at most all.
    pub fn reads_that_came(&self) -> u16
        ensures { result ≡ self.now.gathering.came }
    {
        self.came
    }

    /// The old value of an atomic when its reads came: none where it is denied or a read failed, and then it is not to
    /// write. Of a request that isn't an atomic it tells nothing, nor of one of more than eight bytes or of an address that
    /// isn't a multiple of their number, which no checker lets pass.
    pub fn old_value(&self) -> Option<u64>
        ensures value { result ≡ old_value self.now.outline self.now.gathering }

        // Where all that came are answers of a memory, it is the number that the memory shows.
        ensures seen { IsNumberSeen self.now result }

        // The reply gives its bytes.
        ensures bytes { IfSome result (λ old. (gathered self.now.outline self.now.gathering).bytes ≡ map Some (bytes_of (2 ^ self.now.outline.size) old)) }
    {
        match (self.outline.operation, self.words.first()) {
            (Operation::Atomic(_), Some(Some(word)))
                if !self.denied && self.outline.holds_number() => {
                Some(cut(*word, self.outline.address, self.outline.size))
            }
            _ => None,
        }
    }

    /// Appends the beats of the words.
    fn show_words(&self, reply: &mut ReplyBox)
        requires { reply.old ≡ [] }
        ensures { reply.new ≡ map (word_beat_at self.now.outline self.now.gathering) (range_with_len 0 (length self.now.gathering.words)) }
    {
        for (k, word) in self.words.iter().enumerate() {
            let lanes = self.outline.word_lanes(k);
            reply.push(self.outline.word_beat(self.denied, lanes, *word));
        }
    }

    /// Puts the reply's beats into a box, in place of whatever was there, when all answers came: a word of which nothing
    /// came counts as zero. A reply with data has a beat for each word of the request's range, corrupt with payload zero
    /// where the request is denied or the word isn't given, and with zero in the lanes outside the range; any other is one
    /// beat with payload zero.
    pub fn reply_into(&self, reply: &mut ReplyBox)
        ensures shown { (q : WholeRequest) → outline_of q ≡ self.now.outline
            → reply.new ≡ shown q (gathered self.now.outline self.now.gathering) }
        ensures right { (q : WholeRequest) → outline_of q ≡ self.now.outline
            → ShowsReply q (gathered self.now.outline self.now.gathering) reply.new }

        // Where all that came are answers of a memory, whatever the order of the reads, the beats show the memory's bytes.
        ensures answers { (q : WholeRequest) → outline_of q ≡ self.now.outline
            → ShowsAnswers self.now q reply.new }
    {
        reply.clear();
        if self.outline.operation.reply_has_data() {
            self.show_words(reply);
        } else {
            reply.push(self.outline.bare_beat(self.denied, false));
        }
    }
}
