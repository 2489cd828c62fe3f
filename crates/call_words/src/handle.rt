//! What lies behind a handle: the set-up or what runs, and the words of a call that hasn't all of them yet.
ghost use Rattle.std.specs.Prelude.{◌≡◌, []};
ghost use Rattle.call_words.specs.Handles.{BeginDone, CalledOf, Done, IsNewOf, LineDone, OwnDone, TextTold};
ghost use Rattle.call_words.specs.PendingCalls.{kept_words, taken};
ghost use Rattle.call_words.specs.declared.handle.Stage.TheVariants.{Closed};

use crate::answers::{PENDING, WRONG_CALL, fault_answer, fault_length, text_byte};
use crate::bytes::bytes_of;
use crate::session::{HandleCall, Session};
use crate::words::{byte_in, low_in};
use arrayvec::ArrayVec;
use script_text::ScriptFault;
use std::alloc::Global;
use std::marker::Model;
use std::mem;

/// How far a handle has come.
#[derive(Drop)]
pub(crate) enum Stage<S, R> {
    /// Nothing is there: it was closed, or its set-up was refused.
    Closed,
    /// Lines of the set-up.
    SettingUp(S),
    /// What runs since the set-up was begun.
    Running(R),
}

/// A set-up, and then what runs, behind a handle that takes the words of calls one by one.
#[derive(Drop)]
pub struct Handle<S: Session> {
    alloc: Global,
    stage: Stage<S::SetUp, S::Run>,
    head: u64,
    words: ArrayVec<u64, 16>,
    wanted: u32,
    text: Vec<u8>,
    fault: Option<ScriptFault>,
}

impl<S: Session> Model for Handle<S> {
    ghost use Rattle.call_words.specs.Handles.{HandleState};

    ghost Value = { HandleState S.SetUp S.Run };

    ghost view = { λ h. record { stage = h.stage; call = record { head = h.head; words = h.words.items; wanted = h.wanted }; text = h.text.items } };
}

/// One word more of a call, which keeps at most 16.
fn keep(words: &mut ArrayVec<u64, 16>, word: u64)
    ensures { words.new.items ≡ kept_words words.old.items word }
{
    if words.len() < 16 {
        words.push(word);
    }
}

impl<S: Session> Handle<S> {
    /// A set-up of no line, no call that has begun, and no text.
    pub fn new(alloc: Global) -> Handle<S>
        ensures { IsNewOf S.rules.no_line result }
    {
        Handle {
            alloc,
            stage: Stage::SettingUp(S::no_line()),
            head: 0,
            words: ArrayVec::new(),
            wanted: 0,
            text: Vec::new(alloc),
            fault: None,
        }
    }

    /// Carries out a call of the session's own.
    fn own(&mut self) -> u64
        ensures told { OwnDone S.rules self.old.call self.old.stage self.new.stage result }
        ensures call { self.new.call ≡ self.old.call }
        ensures text { self.new.text ≡ self.old.text }
    {
        let Stage::Running(run) = &mut self.stage else {
            return WRONG_CALL;
        };
        S::call(run, self.head, self.words.as_slice(), &mut self.fault)
    }

    /// Takes a line. This and what else a set-up or an end needs stands apart, so that a call of the session's own has a small frame.
    #[inline(never)]
    fn line(&mut self) -> u64
        ensures told { LineDone S.rules self.old.call self.old.stage self.new.stage result }
        ensures call { self.new.call ≡ self.old.call }
        ensures text { self.new.text ≡ self.old.text }
    {
        let Stage::SettingUp(set_up) = &mut self.stage else {
            return self.own();
        };
        let bytes = bytes_of(self.words.as_slice(), byte_in(self.head / 256));
        if let Err(fault) = S::line(set_up, self.alloc, bytes.as_slice()) {
            self.stage = Stage::Closed;
            self.fault = Some(fault);
            return fault_answer(fault);
        }
        0
    }

    /// Begins what the set-up says.
    #[inline(never)]
    fn begin(&mut self) -> u64
        ensures told { BeginDone S.rules self.old.stage self.new.stage result }
        ensures call { self.new.call ≡ self.old.call }
        ensures text { self.new.text ≡ self.old.text }
    {
        match mem::replace(&mut self.stage, Stage::Closed) {
            Stage::SettingUp(set_up) => match S::begin(set_up, self.alloc) {
                Ok(run) => {
                    self.stage = Stage::Running(run);
                    0
                }
                Err(fault) => {
                    self.fault = Some(fault);
                    fault_answer(fault)
                }
            },
            other => {
                self.stage = other;
                WRONG_CALL
            }
        }
    }

    /// Gives all back but the handle itself.
    #[inline(never)]
    fn close(&mut self) -> u64
        ensures stage { self.new.stage ≡ Closed }
        ensures answer { result ≡ 0 }
        ensures text { self.new.text ≡ [] }
        ensures call { self.new.call ≡ self.old.call }
    {
        self.stage = Stage::Closed;
        self.text = Vec::new(self.alloc);
        0
    }

    /// Writes the text of what was found last, and tells how many bytes it has.
    #[inline(never)]
    fn text_length(&mut self) -> u64
        ensures stage { self.new.stage ≡ self.old.stage }
        ensures told { TextTold S.rules self.old.stage self.new.text result }
        ensures call { self.new.call ≡ self.old.call }
    {
        self.text.clear();
        let Stage::Running(run) = &self.stage else {
            return WRONG_CALL;
        };
        S::tell(run, &mut self.text)
    }

    /// Carries out a call that has all its words.
    fn finish(&mut self) -> u64
        ensures told { Done S.rules (S.rules.call_of self.old.call.head) self.old.call self.old.stage self.old.text self.new.stage self.new.text result }
        ensures call { self.new.call ≡ self.old.call }
    {
        match S::call_of(self.head) {
            HandleCall::Own => self.own(),
            HandleCall::Line => self.line(),
            HandleCall::Begin => self.begin(),
            HandleCall::Close => self.close(),
            HandleCall::TextLength => self.text_length(),
            HandleCall::FaultLength => fault_length(&mut self.text, self.fault),
            HandleCall::TextByte => text_byte(self.text.as_slice(), low_in(self.head / 256)),
        }
    }

    /// Takes a word for the call that has begun, or as the head of the next: only a head is asked how many words it wants.
    fn take(&mut self, word: u64)
        ensures call { self.new.call ≡ taken self.old.call word (S.rules.wanted word) }
        ensures stage { self.new.stage ≡ self.old.stage }
        ensures text { self.new.text ≡ self.old.text }
    {
        if self.wanted == 0 {
            self.words.clear();
            self.head = word;
            self.wanted = S::words_wanted(word);
        } else {
            keep(&mut self.words, word);
            self.wanted -= 1;
        }
    }

    /// Takes a word of a call. The answer to all but the last is that more are wanted.
    pub fn call(&mut self, word: u64) -> u64
        ensures { CalledOf S.rules self.old word self.new result }
    {
        self.take(word);
        if self.wanted > 0 {
            return PENDING;
        }
        self.finish()
    }
}
