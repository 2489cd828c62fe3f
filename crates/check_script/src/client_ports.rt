//! The ports of `tlbridge check`.
ghost use Rattle.std.specs.Prelude.{◌≡◌, true, false, replicate, IfOk, slice_get};
ghost use Rattle.config.specs.Configs.{is_valid, port_of};
ghost use Rattle.check_script.specs.ClientPorts.{beat_verdict, with_changed, after_beat, without_busy, free_verdict};

use crate::lines::CheckCommand;
use config::Config;
use std::alloc::{AllocError, Global};
use std::marker::Model;
use tl_checker::{Port, Progress, TlRule};
use tl_messages::ABeat;

/// What is said of a command.
#[derive(Clone, Copy)]
pub(crate) enum Verdict {
    /// More beats of the message are to come.
    More,
    /// The request is whole.
    Whole,
    /// The beat is refused, by this rule.
    Refused(TlRule),
    /// There is no such client.
    NoClient,
    /// The source is free again.
    Freed,
    /// The source wasn't busy.
    NotBusy,
}

impl Verdict {
    ghost use Rattle.check_script.specs.ClientPorts.{is_refusal};

    /// Whether it makes the exit status 1.
    fn is_refusal(&self) -> bool
        ensures { result ≡ is_refusal self.now }
    {
        matches!(self, Verdict::Refused(_) | Verdict::NoClient)
    }
}

/// A client's port, and which of its sources are busy.
#[derive(Drop)]
struct ClientPort {
    port: Port,
    busy: [bool; 256],
}

impl Model for ClientPort {
    ghost use Rattle.std.specs.Prelude.{◌≡◌, None, length};
    ghost use Rattle.check_script.specs.ClientPorts.{SourcedPort};

    ghost Value = { SourcedPort };

    ghost view = { λ p. record { limits = p.port.limits; front = p.port.front; busy = p.busy } };

    // No whole request stands, so that the next beat may come.
    ghost invariant = { λ p. (p.port.whole ≡ None) × (length p.busy ≡ 256) };
}

impl ClientPort {
    ghost use Rattle.check_script.specs.ClientPorts.{opening_sources, is_busy, verdict_of, beat_answer};

    fn new(alloc: Global, config: &Config, client: u8) -> Result<Self, AllocError>
        requires { is_valid config.now ≡ true }
        ensures { IfOk result (λ port. port ≡ opening_sources (port_of config.now client)) }
    {
        let level = config.level_of(client);
        let port = Port::new(alloc, client, level, config.max_size)?;
        Ok(ClientPort {
            port,
            busy: all_free(),
        })
    }

    /// Takes a beat. The last one of a request makes its source busy, and a refused one changes nothing.
    fn take_beat(&mut self, beat: &ABeat) -> Verdict
        ensures verdict { result ≡ verdict_of (beat_answer self.old beat.now) }
        ensures port { self.new ≡ after_beat self.old beat.now }
    {
        let source = usize::from(beat.source);
        match self.port.take_beat(beat, self.busy[source]) {
            Err(rule) => Verdict::Refused(rule),
            Ok(Progress::More) => Verdict::More,
            Ok(Progress::Whole) => {
                self.port.clear_whole();
                self.busy[source] = true;
                Verdict::Whole
            }
        }
    }

    /// Makes a source free, and answers whether it was busy.
    fn free(&mut self, source: u8) -> bool
        ensures busy { result ≡ is_busy self.old source }
        ensures port { self.new ≡ without_busy self.old source }
    {
        let was_busy = self.busy[usize::from(source)];
        self.busy[usize::from(source)] = false;
        was_busy
    }
}

fn all_free() -> [bool; 256]
    ensures { result ≡ replicate 256 false }
{
    [false; 256]
}

fn offer(clients: &mut Vec<ClientPort>, client: u8, beat: &ABeat) -> Verdict
    ensures verdict { result ≡ beat_verdict (slice_get clients.old.items client) beat.now }
    ensures ports { clients.new.items ≡ with_changed (λ port. after_beat port beat.now) clients.old.items client (slice_get clients.old.items client) }
{
    match clients.get_mut(usize::from(client)) {
        None => Verdict::NoClient,
        Some(port) => port.take_beat(beat),
    }
}

fn free(clients: &mut Vec<ClientPort>, client: u8, source: u8) -> Verdict
    ensures verdict { result ≡ free_verdict (slice_get clients.old.items client) source }
    ensures ports { clients.new.items ≡ with_changed (λ port. without_busy port source) clients.old.items client (slice_get clients.old.items client) }
{
    let Some(port) = clients.get_mut(usize::from(client)) else {
        return Verdict::NoClient;
    };
    if port.free(source) {
        Verdict::Freed
    } else {
        Verdict::NotBusy
    }
}

/// The port of each client, and whether something was refused so far. All room is taken by `new`.
#[derive(Drop)]
pub(crate) struct ClientPorts {
    clients: Vec<ClientPort>,
    refused: bool,
}

impl Model for ClientPorts {
    ghost use Rattle.check_script.specs.ClientPorts.{PortTable};

    ghost Value = { PortTable };

    ghost view = { λ p. record { clients = p.clients.items; refused = p.refused } };
}

impl ClientPorts {
    ghost use Rattle.check_script.specs.ClientPorts.{opening_table, verdict_on, table_after};

    /// Ports with nothing on them. The one error is that memory was refused.
    pub(crate) fn new(alloc: Global, config: &Config) -> Result<Self, AllocError>
        requires { is_valid config.now ≡ true }
        ensures { IfOk result (λ ports. ports ≡ opening_table config.now) }
    {
        let mut clients = Vec::new(alloc);
        for client in 0..config.clients {
            clients.push(ClientPort::new(alloc, config, client)?)?;
        }
        Ok(ClientPorts {
            clients,
            refused: false,
        })
    }

    /// Whether a beat was refused or a client wasn't there so far.
    pub(crate) fn refused(&self) -> bool
        ensures { result ≡ self.now.refused }
    {
        self.refused
    }

    /// Carries out a command.
    pub(crate) fn carry_out(&mut self, command: &CheckCommand) -> Verdict
        ensures verdict { result ≡ verdict_on self.old.clients command.now }
        ensures ports { self.new ≡ table_after self.old command.now }
    {
        let verdict = match command {
            CheckCommand::Offer(client, beat) => offer(&mut self.clients, *client, beat),
            CheckCommand::Free(client, source) => free(&mut self.clients, *client, *source),
        };
        self.refused = self.refused || verdict.is_refusal();
        verdict
    }
}
