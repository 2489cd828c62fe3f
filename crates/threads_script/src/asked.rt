//! What a script asks for, line by line.
ghost use Rattle.std.specs.Prelude.{◌≡◌, ◌≤◌, false, true, IfOk, option_map, length, take};
ghost use Rattle.setups.specs.Setups.{lists_of};
ghost use Rattle.thread_reports.specs.Reports.{items_of};
ghost use Rattle.script_text.specs.Stages.{TakesLine, is_setup_form};
ghost use Rattle.script_text.specs.declared.keywords.Form.TheVariants as form;
ghost use Rattle.threads_script.specs.Asked.{IsFit, asked_by, asked_with, is_full, is_misplaced, is_of_nobody, may_follow, nothing_asked};

use crate::line_parser::{address_line, thread_of, word_line};
use crate::lists;
use crate::lists::{lists_with_room, push_to};
use line_text::{Words, offer_line};
use script_text::{Form, ScriptSetup, add_line, is_setup_form, setup_line};
use setups::Setup;
use std::alloc::{AllocError, Global};
use std::marker::Model;
use tl_messages::ABeat;

/// The most clients.
const MOST_CLIENTS: usize = 8;

/// The most beats of a client's script.
const MOST_BEATS: usize = 4096;

/// The most memory threads.
const MOST_THREADS: usize = 4;

/// The most words of a memory thread, and the most addresses: as many as a script has lines.
const MOST_LINES: usize = 65_536;

/// How far a script of threads was read, which says which lines may follow.
#[derive(Clone, Copy, Debug, PartialEq, Eq)]
pub enum Part {
    /// Set-up lines, or any that come later.
    InSetup,
    /// Beats and words, or addresses.
    InScripts,
    /// Addresses alone.
    InAddresses,
}

/// What a script of `tlbridge threads` asks for: a set-up, each client's beats, the words of one to four memory threads, and
/// the addresses whose bytes are shown at the end. All room is taken by `new`; no other call takes memory.
pub struct Asked {
    part: Part,
    setup: Option<Setup>,
    scripts: Vec<Vec<ABeat>>,
    words: Vec<Vec<u64>>,
    threads: u8,
    addresses: Vec<u32>,
}

impl Model for Asked {
    ghost use Rattle.std.specs.Prelude.{◌≡◌, ◌≤◌, length, option_map};
    ghost use Rattle.std.specs.Vec.{vec_capacity};
    ghost use Rattle.thread_reports.specs.Reports.{items_of};
    ghost use Rattle.threads_script.specs.Asked.{AskedLists};
    ghost use Rattle.threads_script.specs.Lists.{AreShort, HaveRoom};
    ghost use Rattle.setups.specs.Setups.{lists_of};

    ghost Value = { AskedLists };

    ghost view = { λ a. record { part = a.part; setup = option_map lists_of a.setup; scripts = items_of a.scripts.items; words = items_of a.words.items; threads = a.threads; addresses = a.addresses.items } };

    ghost invariant = { λ a. (length (items_of a.scripts.items) ≡ 8) × AreShort 4096 (items_of a.scripts.items) × HaveRoom 4096 a.scripts.items × (length (items_of a.words.items) ≡ 4) × HaveRoom 65536 a.words.items × (1 ≤ a.threads) × (a.threads ≤ 4) × (65536 ≤ vec_capacity a.addresses) };
}

// Written out, so that what lets go of one calls this, and proves nothing of its parts.
impl Drop for Asked {
    fn drop(self) {
        let Asked {
            part: _,
            setup: _,
            scripts: _,
            words: _,
            threads: _,
            addresses: _,
        } = self;
    }
}

/// Whether a line of a form may come in a part.
fn may_follow(part: Part, form: Form) -> bool
    ensures { result ≡ may_follow part form }
{
    match (part, form) {
        (_, Form::Mem) => true,
        (Part::InAddresses, _) => false,
        (_, Form::Offer | Form::Word) => true,
        (Part::InSetup, _) => is_setup_form(form),
        (Part::InScripts, _) => false,
    }
}

impl Asked {
    /// Nothing yet, with room for all that a script may ask for.
    pub fn new(alloc: Global) -> Result<Asked, AllocError>
        ensures { IfOk result (λ asked. asked ≡ nothing_asked) }
    {
        Ok(Asked {
            part: Part::InSetup,
            setup: None,
            scripts: lists_with_room(alloc, MOST_CLIENTS, MOST_BEATS)?,
            words: lists_with_room(alloc, MOST_THREADS, MOST_LINES)?,
            threads: 1,
            addresses: Vec::with_capacity(alloc, MOST_LINES)?,
        })
    }

    /// Whether there is no room for a line.
    fn is_full(&self, setup: &Setup, form: Form, words: &Words<'_>) -> bool
        ensures { result ≡ is_full self.now (lists_of setup.now) form words.now }
    {
        match form {
            Form::Offer => match words.byte(2) {
                Ok(client) => {
                    lists::is_full(self.scripts.as_slice(), usize::from(client), MOST_BEATS)
                }
                Err(_) => false,
            },
            Form::Word => match thread_of(words) {
                Ok(thread) => {
                    lists::is_full(self.words.as_slice(), usize::from(thread), MOST_LINES)
                }
                Err(_) => false,
            },
            Form::Mem => self.addresses.len() >= MOST_LINES,
            _ => setup.has_no_room(form, words),
        }
    }

    /// Whether a line may not stand here.
    fn is_misplaced(&self, form: Form, words: &Words<'_>) -> bool
        ensures { result ≡ is_misplaced self.now self.now.setup form words.now }
    {
        match &self.setup {
            None => !matches!(form, Form::Config),
            Some(setup) => !may_follow(self.part, form) || self.is_full(setup, form, words),
        }
    }

    /// Whether a line's client isn't there.
    fn is_of_nobody(&self, words: &Words<'_>) -> bool
        ensures { result ≡ is_of_nobody self.now.setup words.now }
    {
        match (&self.setup, words.byte(2)) {
            (Some(setup), Ok(client)) => client >= setup.config.clients,
            _ => false,
        }
    }

    /// Takes a beat of a client.
    fn take_beat(&mut self, words: &Words<'_>) -> Result<(), u32>
        requires { is_misplaced self.old self.old.setup form.Offer words.now ≡ false }
        ensures { TakesLine (asked_with self.old form.Offer words.now) self.new result }
    {
        if self.is_of_nobody(words) {
            return Err(2);
        }
        let (client, beat) = offer_line(words)?;
        push_to(&mut self.scripts, usize::from(client), MOST_BEATS, beat);
        self.part = Part::InScripts;
        Ok(())
    }

    /// Takes a word of a memory thread.
    fn take_word(&mut self, words: &Words<'_>) -> Result<(), u32>
        requires { is_misplaced self.old self.old.setup form.Word words.now ≡ false }
        ensures { TakesLine (asked_with self.old form.Word words.now) self.new result }
    {
        let (thread, word) = word_line(words)?;
        push_to(&mut self.words, usize::from(thread), MOST_LINES, word);
        self.threads = self.threads.max(thread + 1);
        self.part = Part::InScripts;
        Ok(())
    }

    /// Takes an address.
    fn take_address(&mut self, words: &Words<'_>) -> Result<(), u32>
        requires { is_misplaced self.old self.old.setup form.Mem words.now ≡ false }
        ensures { TakesLine (asked_with self.old form.Mem words.now) self.new result }
    {
        let address = address_line(words)?;
        self.addresses.push_reserved(address);
        self.part = Part::InAddresses;
        Ok(())
    }

    /// Takes a line of the set-up.
    fn take_setup_line(&mut self, form: Form, words: &Words<'_>) -> Result<(), u32>
        requires place { is_misplaced self.old self.old.setup form words.now ≡ false }
        requires form { is_setup_form form ≡ true }
        ensures { TakesLine (asked_with self.old form words.now) self.new result }
    {
        if matches!(form, Form::Config) {
            self.setup = Some(Setup::of_config(words)?);
            return Ok(());
        }
        let line = setup_line(form, words)?;
        if let Some(setup) = &mut self.setup {
            add_line(setup, line);
        }
        Ok(())
    }

    /// Takes a line, or answers its first wrong word.
    pub(crate) fn take_line(&mut self, words: &Words<'_>) -> Result<(), u32>
        ensures { TakesLine (asked_by self.old words.now) self.new result }
    {
        let Some(form) = Form::named(words.at(1)) else {
            return Err(1);
        };
        if self.is_misplaced(form, words) {
            return Err(1);
        }
        match form {
            Form::Offer => self.take_beat(words),
            Form::Word => self.take_word(words),
            Form::Mem => self.take_address(words),
            _ if is_setup_form(form) => self.take_setup_line(form, words),
            _ => Err(1),
        }
    }

    /// The set-up, once `config` came.
    pub fn setup(&self) -> Option<&Setup>
        ensures { option_map (λ setup. lists_of setup.now) result ≡ self.now.setup }
    {
        self.setup.as_ref()
    }

    /// The beats that each of so many clients offers, in order, by the client's number.
    pub fn scripts(&self, clients: u8) -> &[Vec<ABeat>]
        requires { clients ≤ 8 }
        ensures items { items_of result.now ≡ take clients self.now.scripts }
        ensures fit { IsFit self.now }
    {
        &self.scripts[..usize::from(clients)]
    }

    /// The words of each memory thread, by number.
    pub fn words(&self) -> &[Vec<u64>]
        ensures { items_of result.now ≡ take self.now.threads self.now.words }
    {
        &self.words[..usize::from(self.threads)]
    }

    /// The addresses whose bytes are shown at the end.
    pub fn addresses(&self) -> &[u32]
        ensures { result.now ≡ self.now.addresses }
    {
        self.addresses.as_slice()
    }
}
