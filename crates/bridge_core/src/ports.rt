//! The clients' ports.
ghost use Rattle.std.specs.Prelude.{◌≡◌, true, None, IfOk, IfSome, IsSomeAnd, slice_get, slice_set};
ghost use Rattle.tl_checker.specs.Ports.{judged, opening_port, port_after};
ghost use Rattle.config.specs.Configs.{is_valid};
ghost use Rattle.bridge_core.specs.Inside.{CanAccept, ports_from};
ghost use Rattle.bridge_core.specs.Laws.{IsSoundRequestTable};
ghost use Rattle.bridge_core.specs.HeldRequests.{with_request};

use crate::Config;
use crate::request_table::RequestTable;
use std::alloc::{AllocError, Global};
use tl_checker::{Port, Progress, TlRule};
use tl_messages::ABeat;

/// A port for each client, on which no beat has come.
pub(crate) fn opening_ports(alloc: Global, config: &Config) -> Result<Vec<Port>, AllocError>
    requires { is_valid config.now ≡ true }
    ensures { IfOk result (λ ports. ports.items ≡ ports_from config.now 0 config.now.clients) }
{
    let mut ports = Vec::new(alloc);
    for client in 0..config.clients {
        let level = config.level_of(client);
        ports.push(Port::new(alloc, client, level, config.max_size)?)?;
    }
    Ok(ports)
}

/// What a client's port would answer to a beat.
pub(crate) fn judge(
    ports: &[Port],
    client: u8,
    beat: &ABeat,
    busy: bool,
) -> Result<Progress, TlRule>
    requires { IsSomeAnd (slice_get ports.now client) (λ port. port.whole ≡ None) }
    ensures { IfSome (slice_get ports.now client) (λ port. result ≡ judged port.limits port.front beat.now busy) }
{
    ports[usize::from(client)].judge(beat, busy)
}

/// Takes a beat at a client's port, which judged it; one that breaks a rule changes nothing.
pub(crate) fn take_told(
    ports: &mut Vec<Port>,
    client: u8,
    beat: &ABeat,
    busy: bool,
    told: Result<Progress, TlRule>,
)
    requires whole { IsSomeAnd (slice_get ports.old.items client) (λ port. port.whole ≡ None) }
    requires told { IfSome (slice_get ports.old.items client) (λ port. told ≡ judged port.limits port.front beat.now busy) }
    ensures { IfSome (slice_get ports.old.items client) (λ port. ports.new.items ≡ slice_set ports.old.items client (port_after port beat.now told)) }
{
    if let Ok(progress) = told {
        ports[usize::from(client)].take_judged(beat, busy, progress);
    }
}

/// Accepts the request that stands whole on a client's port.
pub(crate) fn accept(ports: &mut Vec<Port>, requests: &mut RequestTable, client: u8) -> u64
    requires { IsSomeAnd (slice_get ports.old.items client) (CanAccept requests.old client) }
    ensures number { result ≡ requests.old.accepted }
    ensures table { IfSome (slice_get ports.old.items client) (λ port. IfSome port.whole (λ message. requests.new ≡ with_request message requests.old)) }
    ensures ports { IfSome (slice_get ports.old.items client) (λ port. ports.new.items ≡ slice_set ports.old.items client (opening_port port.limits)) }
    ensures laws { IsSoundRequestTable requests.new }
{
    requests.accept(&mut ports[usize::from(client)])
}
