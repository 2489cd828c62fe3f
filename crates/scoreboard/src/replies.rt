//! The replies to a client's requests of which no beat came.
ghost use Rattle.std.specs.Prelude.{◌≡◌, ◌<◌, ◌≤◌, [], IfOk, length};
ghost use Rattle.std.specs.Vec.{vec_capacity, vec_len};
ghost use Rattle.scoreboard.specs.Replies.{reply_of, with_reply};

use std::alloc::{AllocError, Global};
use std::marker::Model;
use tl_messages::{DBeat, MAX_BEATS};

/// How many sources there are.
const SOURCES: usize = 256;

/// What a place holds before a reply is put there.
const NO_BEAT: DBeat = DBeat {
    opcode: 0,
    param: 0,
    size: 0,
    source: 0,
    denied: false,
    corrupt: false,
    payload: 0,
};

/// A place for the beats of one reply, up to 512.
#[derive(Drop)]
struct Kept {
    count: u16,
    beats: [DBeat; MAX_BEATS],
}

impl Model for Kept {
    ghost use Rattle.std.specs.Prelude.{List, ◌≤◌, take};
    ghost use Rattle.tl_messages.specs.declared.DBeat.{DBeat};

    ghost Value = { List DBeat };

    ghost view = { λ k. take k.count k.beats };

    ghost invariant = { λ k. k.count ≤ 512 };
}

impl Kept {
    /// A place that holds no beats.
    fn new() -> Self
        ensures { result ≡ [] }
    {
        Kept {
            count: 0,
            beats: [NO_BEAT; MAX_BEATS],
        }
    }

    /// The beats that it holds, in order.
    fn beats(&self) -> &[DBeat]
        ensures value { result.now ≡ self.now }
        ensures most { length result.now ≤ 512 }
    {
        &self.beats[..usize::from(self.count)]
    }

    /// It holds this reply.
    fn put(&mut self, reply: &[DBeat])
        requires { length reply.now ≤ 512 }
        ensures { self.new ≡ reply.now }
    {
        let count = reply.len();
        self.beats[..count].copy_from_slice(reply);
        self.count = count as u16;
    }
}

/// Replies by source, none at first. All room is taken by `new`: it is one block, of which the part of a source is first written when
/// a reply to it, or to a higher one, is put there.
#[derive(Drop)]
pub(crate) struct Replies {
    kept: Vec<Kept>,
}

impl Model for Replies {
    ghost use Rattle.std.specs.Prelude.{List, ◌≤◌};
    ghost use Rattle.std.specs.Vec.{vec_capacity};
    ghost use Rattle.tl_messages.specs.declared.DBeat.{DBeat};

    ghost Value = { List (List DBeat) };

    ghost view = { λ r. r.kept.items };

    ghost invariant = { λ r. 256 ≤ vec_capacity r.kept };
}

/// There are places up to that of a source.
fn reach(kept: &mut Vec<Kept>, source: u8)
    requires { 256 ≤ vec_capacity kept.old }
    ensures place { source < vec_len kept.new }
    ensures replies { reply_of kept.new.items ≡ reply_of kept.old.items }
    ensures room { vec_capacity kept.new ≡ vec_capacity kept.old }
{
    while kept.len() <= usize::from(source) {
        kept.push_reserved(Kept::new());
    }
}

impl Replies {
    /// No replies. The one error is that memory was refused.
    pub(crate) fn new(alloc: Global) -> Result<Self, AllocError>
        ensures { IfOk result (λ made. made ≡ []) }
    {
        let kept = Vec::with_capacity(alloc, SOURCES)?;
        Ok(Replies { kept })
    }

    /// The reply to a source; no beats, where none was put there.
    pub(crate) fn beats(&self, source: u8) -> &[DBeat]
        ensures value { result.now ≡ reply_of self.now source }
        ensures most { length result.now ≤ 512 }
    {
        match self.kept.get(usize::from(source)) {
            None => &[],
            Some(kept) => kept.beats(),
        }
    }

    /// The reply to a source is another.
    pub(crate) fn put(&mut self, source: u8, reply: &[DBeat])
        requires { length reply.now ≤ 512 }
        ensures { reply_of self.new ≡ with_reply source reply.now (reply_of self.old) }
    {
        reach(&mut self.kept, source);
        self.kept[usize::from(source)].put(reply);
    }
}
