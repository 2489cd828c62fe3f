//! What is known of a client's requests by their numbers.
ghost use Rattle.std.specs.Prelude.{◌≡◌, ◌<◌, ◌==◌, ◌||◌, None, Some, IfOk, IfSome, length, nat_le, slice_index_or};
ghost use Rattle.std.specs.List.{AllByRecursion, position};
ghost use Rattle.scoreboard.specs.Unknown.{with_lanes};
ghost use Rattle.value_board.specs.ClientValues.{HasRange, IsAsked, accepted, asked_by, first_number, no_numbers, reset_numbers, with_answer, with_begun, without_number};

use std::alloc::{AllocError, Global};
use std::marker::Model;
use tl_messages::AtomicOp;
use value_memory::ByteRange;

/// How many sources a client has.
const SOURCES: usize = 256;

/// How many requests a client may have in flight: one of each source, the one whose reply has begun, and the one whose message has.
const MOST: usize = 258;

/// How many beats a message has at most.
const MOST_BEATS: usize = 512;

/// A request that has begun.
#[derive(Clone, Copy, Debug, PartialEq, Eq)]
pub(crate) struct Begun {
    /// Its number: how many had begun as it began, itself counted.
    pub(crate) number: u64,
    /// The bytes that it may give.
    pub(crate) gives: Option<ByteRange>,
}

/// What an atomic does to the bytes that it reads.
#[derive(Clone, Copy, Debug, PartialEq, Eq)]
pub(crate) struct AtomicStep {
    /// Its operation.
    pub(crate) op: AtomicOp,
    /// The address of the first of these bytes in the memory.
    pub(crate) address: u32,
    /// How many there are, as a power of two: at most 3.
    pub(crate) size: u8,
    /// Its operand: the number that its bytes make.
    pub(crate) operand: u64,
}

/// A request that is whole, and what it makes of the bytes that its reply tells, if it is an atomic that makes something of them.
#[derive(Clone, Copy, Debug, PartialEq, Eq)]
pub(crate) struct Asked {
    /// The request.
    pub(crate) begun: Begun,
    /// What it makes.
    pub(crate) step: Option<AtomicStep>,
}

/// One of which nobody asked.
const NEVER_ASKED: Asked = Asked {
    begun: Begun {
        number: 0,
        gives: None,
    },
    step: None,
};

/// The numbers of a client's requests: of each source the last that was whole; the one whose reply has begun; the one whose message has
/// begun, the lanes that nobody knows of each of its beats, and whether an error response came to a burst that shares a byte with it; and
/// all that are in flight, in the order in which they began. All room is taken by `new`.
pub(crate) struct ClientValues {
    by_source: Vec<Asked>,
    answering: Option<Asked>,
    coming: Option<Begun>,
    hidden: Vec<u8>,
    struck: bool,
    live: Vec<Begun>,
}

impl Model for ClientValues {
    ghost use Rattle.std.specs.Prelude.{◌≡◌, ◌≤◌, length};
    ghost use Rattle.std.specs.Vec.{vec_capacity};
    ghost use Rattle.value_board.specs.ClientValues.{AreNumbers, ClientNumbers};

    ghost Value = { ClientNumbers };

    ghost view = { λ c. record { by_source = c.by_source.items; answering = c.answering; coming = c.coming; hidden = c.hidden.items; struck = c.struck; live = c.live.items } };

    ghost invariant = { λ c. (length c.by_source.items ≡ 256) × (258 ≤ vec_capacity c.live) × (512 ≤ vec_capacity c.hidden)
        × AreNumbers (record { by_source = c.by_source.items; answering = c.answering; coming = c.coming; hidden = c.hidden.items; struck = c.struck; live = c.live.items }) };
}

// Written out, so that what lets go of one calls this, and proves nothing of its parts.
impl Drop for ClientValues {
    fn drop(self) {
        let ClientValues {
            by_source: _,
            answering: _,
            coming: _,
            hidden: _,
            struck: _,
            live: _,
        } = self;
    }
}

/// A place for the last request of each source.
fn sources(alloc: Global) -> Result<Vec<Asked>, AllocError>
    ensures { IfOk result (λ made. made.items ≡ no_numbers.by_source) }
{
    let mut made = Vec::with_capacity(alloc, SOURCES)?;
    for _source in 0..SOURCES {
        made.push_reserved(NEVER_ASKED);
    }
    Ok(made)
}

/// The place of a request by its number.
fn place_of(live: &[Begun], number: u64) -> Option<usize>
    ensures { result ≡ position (λ begun. begun.number == number) live.now }
{
    live.iter().position(|begun| begun.number == number)
}

impl ClientValues {
    /// Nothing has begun. The one error is that memory was refused.
    pub(crate) fn new(alloc: Global) -> Result<Self, AllocError>
        ensures { IfOk result (λ made. made ≡ no_numbers) }
    {
        Ok(ClientValues {
            by_source: sources(alloc)?,
            answering: None,
            coming: None,
            hidden: Vec::with_capacity(alloc, MOST_BEATS)?,
            struck: false,
            live: Vec::with_capacity(alloc, MOST)?,
        })
    }

    /// Whether there is no room for one more in flight.
    #[inline]
    pub(crate) fn is_full(&self) -> bool
        ensures { result ≡ nat_le 258 (length self.now.live) }
    {
        self.live.len() >= MOST
    }

    /// The one whose message has begun, if one has.
    #[inline]
    pub(crate) fn coming(&self) -> Option<Begun>
        ensures value { result ≡ self.now.coming }
        ensures range { IfSome result HasRange }
    {
        self.coming
    }

    /// The one whose reply has begun, if one has.
    #[inline]
    pub(crate) fn answering(&self) -> Option<Asked>
        ensures value { result ≡ self.now.answering }
        ensures sound { IfSome result IsAsked }
    {
        self.answering
    }

    /// The last request of a source that was whole.
    #[inline]
    pub(crate) fn asked_by(&self, source: u8) -> Asked
        ensures value { result ≡ asked_by self.now source }
        ensures sound { IsAsked result }
    {
        self.by_source[usize::from(source)]
    }

    /// The lanes that nobody knows of beat `k`, from 0, of the message that has begun.
    #[inline]
    pub(crate) fn hidden(&self, k: u32) -> u8
        ensures { result ≡ slice_index_or self.now.hidden k 0 }
    {
        let place = k as usize;
        if place >= self.hidden.len() {
            return 0;
        }
        self.hidden[place]
    }

    /// Whether an error response came to a burst that shares a byte with the message that has begun.
    #[inline]
    pub(crate) fn struck(&self) -> bool
        ensures { result ≡ self.now.struck }
    {
        self.struck
    }

    /// All that are in flight, in the order in which they began.
    #[inline]
    pub(crate) fn live(&self) -> &[Begun]
        ensures value { result.now ≡ self.now.live }
        ensures ranges { AllByRecursion HasRange result.now }
    {
        self.live.as_slice()
    }

    /// The number of the oldest in flight, if one is.
    #[inline]
    pub(crate) fn oldest(&self) -> Option<u64>
        ensures { result ≡ first_number self.now.live }
    {
        match self.live.first() {
            Some(first) => Some(first.number),
            None => None,
        }
    }

    /// A request begins with its first beat.
    pub(crate) fn begin(&mut self, begun: Begun)
        requires few { length self.old.live < 258 }
        requires range { HasRange begun }
        ensures { self.new ≡ with_begun begun self.old }
    {
        self.coming = Some(begun);
        self.struck = false;
        self.live.push_reserved(begun);
    }

    /// A beat of the message that has begun came, which gives these lanes that nobody knows; behind the last that a message may have
    /// nothing changes.
    #[inline]
    pub(crate) fn hear(&mut self, given: u8)
        ensures { self.new ≡ record self.old { hidden = with_lanes self.old.hidden given } }
    {
        if self.hidden.len() >= MOST_BEATS {
            return;
        }
        self.hidden.push_reserved(given);
    }

    /// An error response came to a burst, which may share a byte with the message that has begun.
    #[inline]
    pub(crate) fn strike(&mut self, shares: bool)
        ensures { self.new ≡ record self.old { struck = self.old.struck || shares } }
    {
        self.struck = self.struck || shares;
    }

    /// The message that had begun is whole, and is this request of a source.
    pub(crate) fn accept(&mut self, source: u8, asked: Asked)
        requires { IsAsked asked }
        ensures { self.new ≡ accepted source asked self.old }
    {
        self.by_source[usize::from(source)] = asked;
        self.coming = None;
        self.hidden.clear();
        self.struck = false;
    }

    /// The reply to the last request of a source begins.
    pub(crate) fn answer(&mut self, source: u8)
        ensures { self.new ≡ with_answer source self.old }
    {
        self.answering = Some(self.asked_by(source));
    }

    /// The reply that had begun is over.
    pub(crate) fn answered(&mut self)
        ensures { self.new ≡ record self.old { answering = None } }
    {
        self.answering = None;
    }

    /// A request is in flight no more.
    pub(crate) fn end(&mut self, number: u64)
        ensures { self.new ≡ record self.old { live = without_number number self.old.live } }
    {
        let Some(place) = place_of(self.live.as_slice(), number) else {
            return;
        };
        self.live.remove(place);
    }

    /// Nothing is in flight any more, and nothing has begun.
    pub(crate) fn reset(&mut self)
        ensures { self.new ≡ reset_numbers self.old }
    {
        self.answering = None;
        self.coming = None;
        self.hidden.clear();
        self.struck = false;
        self.live.clear();
    }
}
