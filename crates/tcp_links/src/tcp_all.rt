ghost use Rattle.std.specs.Prelude.{◌≡◌, IfOk, None};
ghost use Rattle.sw_base.specs.Link.{opened};

use crate::limits::set_limits;
use crate::tcp_acceptor::acceptors;
use crate::{
    DeadlineLink, HasFailed, Limits, LinkEnding, LoggedLink, SocketLink, TcpAcceptor, TcpLink,
};
use log::{Level, Log, error, info, log_enabled};
use std::alloc::Global;
use std::io::ErrorKind;
use std::net::{Net, SocketAddr, TcpListener, TcpStream, ToSocketAddrs};
use std::{io, rt};
use sw_base::{Dialer, Link, Listener, StartFault};

/// The system's sockets, as a listener and a dialer with one count of faults. It tells nothing else.
///
/// A link that comes to it has the limits of a server with as many workers as it listens for, and one
/// that it dials has those of a client. It logs where it listens, and why a call failed.
#[derive(Drop)]
pub struct TcpAll<
    'a,
    N: Net<Listener = TcpListener, Stream = TcpStream>,
    T: rt::Clock + Log + Sync,
> {
    alloc: Global,
    net: &'a N,
    rt: &'a T,
    faults: u64,
}

impl<'a, N: Net<Listener = TcpListener, Stream = TcpStream>, T: rt::Clock + Log + Sync> TcpAll<
    'a,
    N,
    T,
> {
    ghost use Rattle.tcp_links.specs.Untold.{untold_listener, untold_dialer};

    /// Sockets that have no fault yet.
    pub fn new(alloc: Global, net: &'a N, rt: &'a T) -> Self
        ensures listener { ⟦<TcpAll<'a, N, T> as Listener>⟧.state result ≡ untold_listener }
        ensures dialer { ⟦<TcpAll<'a, N, T> as Dialer>⟧.state result ≡ untold_dialer }
    {
        TcpAll {
            alloc,
            net,
            rt,
            faults: 0,
        }
    }
}

impl<'a, N: Net<Listener = TcpListener, Stream = TcpStream>, T: rt::Clock + Log + Sync> Listener
    for TcpAll<'a, N, T> {
    type Acceptor = TcpAcceptor<'a, T>;

    ghost state = { λ l. record { waiting = None; listened = None; ended = None; out = None; faults = l.faults } };

    fn listen(
        &mut self,
        address: &str,
        workers: u32,
    ) -> Result<Vec<TcpAcceptor<'a, T>>, StartFault> {
        let listener = match TcpListener::bind(self.net, address) {
            Ok(listener) => listener,
            Err(error) => {
                error!(self.rt; "can't listen on {address}: {error}");
                self.faults = self.faults.saturating_add(1);
                return Err(StartFault::Failed);
            }
        };
        let limits = Limits::of_server(workers);
        match acceptors(self.alloc, &listener, self.rt, limits, workers) {
            Ok(given) => {
                log_listening(self.rt, &listener, address, workers);
                Ok(given)
            }
            Err(StartFault::Memory) => Err(StartFault::Memory),
            Err(StartFault::Failed) => {
                self.faults = self.faults.saturating_add(1);
                Err(StartFault::Failed)
            }
        }
    }

    fn shut(&mut self, acceptor: TcpAcceptor<'a, T>) {
        if acceptor.faults() > 0 {
            self.faults = self.faults.saturating_add(1);
        }
    }
}

/// Logs where a socket listens. An address with port 0 has the system choose a free one, so the port is
/// that of the socket.
fn log_listening<G: Log>(log: &G, listener: &TcpListener, address: &str, workers: u32) {
    let (host, _) = address.rsplit_once(':').unwrap_or((address, ""));
    let port = listener.local_addr().map_or(0, |place| place.port());
    info!(log; "listening on {host}:{port}, workers {workers}");
}

/// A link to the first of the address's places that answers, and that place, with the limit of a write
/// set on its stream. Each place has the limit of a call to answer.
fn connect<N: Net<Stream = TcpStream>>(
    net: &N,
    address: &str,
    limits: Limits,
) -> io::Result<(SocketLink, SocketAddr)>
    ensures { IfOk result (λ it. ⟦<SocketLink as Link>⟧.state it.0 ≡ opened None None) }
{
    let mut last = io::Error::from(ErrorKind::NotConnected);
    for place in address.to_socket_addrs(net)? {
        match TcpStream::connect_timeout(net, &place, limits.call) {
            Ok(stream) if set_limits(&stream, limits) => return Ok((TcpLink::over(stream)?, place)),
            Ok(_) => {}
            Err(error) => last = error,
        }
    }
    Err(last)
}

impl<'a, N: Net<Listener = TcpListener, Stream = TcpStream>, T: rt::Clock + Log + Sync> Dialer
    for TcpAll<'a, N, T> {
    type Link = LoggedLink<DeadlineLink<'a, SocketLink, T>>;

    ghost state = { λ l. record { dialed = None; answers = None; ended = None; out = None; faults = l.faults } };

    fn dial(
        &mut self,
        address: &str,
    ) -> Result<LoggedLink<DeadlineLink<'a, SocketLink, T>>, StartFault> {
        let limits = Limits::of_client();
        match connect(self.net, address, limits) {
            Ok((link, peer)) => {
                let link = DeadlineLink::new(link, peer, self.rt, limits);
                let is_kept = log_enabled!(self.rt; Level::Error);
                Ok(LoggedLink::new(self.alloc, link, is_kept))
            }
            Err(error) => {
                error!(self.rt; "can't reach {address}: {error}");
                self.faults = self.faults.saturating_add(1);
                Err(StartFault::Failed)
            }
        }
    }

    fn end(&mut self, link: LoggedLink<DeadlineLink<'a, SocketLink, T>>) {
        if let Some((status, body)) = link.refusal() {
            error!(self.rt; "the server refused, status {status}: {body}");
        }
        let link = link.into_inner();
        let peer = link.peer();
        match link.ending() {
            LinkEnding::OtherSide | LinkEnding::ThisSide => {}
            LinkEnding::TimeLimit => error!(self.rt; "connection to {peer} failed: timed out"),
            LinkEnding::Failed(error) => error!(self.rt; "connection to {peer} failed: {error}"),
        }
        if link.has_failed() {
            self.faults = self.faults.saturating_add(1);
        }
    }
}
