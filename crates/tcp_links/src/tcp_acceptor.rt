ghost use Rattle.std.specs.Prelude.{◌≡◌, All, IfOk, length, None};
ghost use Rattle.sw_base.specs.Link.{opened};
ghost use Rattle.tcp_links.specs.Endings.{may_retry as spec_may_retry};

use crate::closing::close;
use crate::limits::set_limits;
use crate::{DeadlineLink, HasFailed, Limits, LinkEnding, SocketLink, TcpLink};
use log::{Log, error, info};
use std::alloc::Global;
use std::io::ErrorKind;
use std::net::{SocketAddr, TcpListener};
use std::{io, rt};
use sw_base::{Acceptor, Failed, Link, StartFault};

/// One of the acceptors of a listening socket. It tells no links. A link that ends while its peer
/// still sends is read on for one second at most, so that the peer gets the last reply. It logs each
/// link that ends, and why an accept or a call on a link failed.
#[derive(Drop)]
pub struct TcpAcceptor<'a, T: rt::Clock + Log> {
    listener: TcpListener,
    rt: &'a T,
    limits: Limits,
    faults: u64,
}

impl<'a, T: rt::Clock + Log> TcpAcceptor<'a, T> {
    /// How many accepts failed.
    pub(crate) fn faults(&self) -> u64
        ensures { result ≡ self.now.faults }
    {
        self.faults
    }
}

/// One acceptor for each worker, over one socket.
pub fn acceptors<'a, T: rt::Clock + Log>(
    alloc: Global,
    listener: &TcpListener,
    rt: &'a T,
    limits: Limits,
    workers: u32,
) -> Result<Vec<TcpAcceptor<'a, T>>, StartFault>
    ensures { IfOk result (λ v. (length v.items ≡ workers) × All (λ a. a.faults ≡ 0) v.items) }
{
    let Ok(mut given) = Vec::with_capacity(alloc, workers as usize) else {
        return Err(StartFault::Memory);
    };
    'workers: for _ in 0..workers {
        match listener.try_clone() {
            Ok(listener) => given.push_reserved(TcpAcceptor {
                listener,
                rt,
                limits,
                faults: 0,
            }),
            Err(error) => {
                error!(rt; "can't share the listening socket: {error}");
                return Err(StartFault::Failed);
            }
        }
    }
    Ok(given)
}

/// Whether an accept may be made again: a signal interrupted it, or it met a connection that is gone
/// already, whose error it tells.
fn may_retry(kind: ErrorKind) -> bool
    ensures { result ≡ spec_may_retry kind }
{
    matches!(
        kind,
        ErrorKind::Interrupted
            | ErrorKind::ConnectionAborted
            | ErrorKind::ConnectionReset
            | ErrorKind::HostUnreachable
            | ErrorKind::NetworkUnreachable
            | ErrorKind::NetworkDown
    )
}

/// The next link and its peer, with the limit of a write set on its stream. One on which it can't be set
/// is gone, and is passed over.
fn next_link(listener: &TcpListener, limits: Limits) -> io::Result<(SocketLink, SocketAddr)>
    ensures { IfOk result (λ it. ⟦<SocketLink as Link>⟧.state it.0 ≡ opened None None) }
{
    for _ in 0..u64::MAX {
        match listener.accept() {
            Ok((stream, peer)) => {
                if set_limits(&stream, limits) {
                    return Ok((TcpLink::over(stream)?, peer));
                }
            }
            Err(error) => {
                if !may_retry(error.kind()) {
                    return Err(error);
                }
            }
        }
    }
    Err(io::Error::from(ErrorKind::Interrupted))
}

impl<'a, T: rt::Clock + Log + Sync> Acceptor for TcpAcceptor<'a, T> {
    type Link = DeadlineLink<'a, SocketLink, T>;

    ghost state = { λ a. record { coming = None; served = None; out = None; faults = a.faults } };

    fn accept(&mut self) -> Result<Option<DeadlineLink<'a, SocketLink, T>>, Failed> {
        match next_link(&self.listener, self.limits) {
            Ok((link, peer)) => Ok(Some(DeadlineLink::new(link, peer, self.rt, self.limits))),
            Err(error) => {
                error!(self.rt; "can't accept a connection: {error}");
                self.faults = self.faults.saturating_add(1);
                Err(Failed)
            }
        }
    }

    fn end(&mut self, link: DeadlineLink<'a, SocketLink, T>) {
        let peer = link.peer();
        let by = match link.ending() {
            LinkEnding::OtherSide => "the client",
            LinkEnding::ThisSide => "the server",
            LinkEnding::TimeLimit => "a limit of time",
            LinkEnding::Failed(error) => {
                error!(self.rt; "connection from {peer} failed: {error}");
                "a failed call"
            }
        };
        info!(self.rt; "connection from {peer} ended by {by}, replies {}", link.flushes());
        if let Some(timely) = link.into_link_in_time()
            && let Some(stream) = timely.into_unfinished()
        {
            close(stream);
        }
    }
}
