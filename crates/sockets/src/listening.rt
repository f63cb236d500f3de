//! The socket that clients knock at.
use mio::net::{TcpListener, TcpStream};
use mio::{Interest, Registry, Token};
use std::io::{self, ErrorKind};
use std::net::{Ipv4Addr, Net, SocketAddr};

/// The socket that clients knock at. Where one can't be let in, it pauses: the system tells of each knock once, so it has to be asked
/// again.
#[derive(Drop)]
pub(crate) struct Listening {
    listener: TcpListener,
    is_paused: bool,
}

impl Listening {
    /// Listens at a port of this machine alone, and is told of under a token.
    pub fn open<R: Net>(
        rt: &R,
        registry: &Registry,
        token: Token,
        port: u16,
    ) -> io::Result<Listening> {
        let mut listener = TcpListener::bind(rt, SocketAddr::from((Ipv4Addr::LOCALHOST, port)))?;
        registry.register(&mut listener, token, Interest::READABLE)?;
        Ok(Listening {
            listener,
            is_paused: false,
        })
    }

    /// Lets in one client that knocks. None where none does. It pauses where one can't be let in, as for want of descriptors.
    pub fn accept(&mut self) -> Option<(TcpStream, SocketAddr)> {
        match self.listener.accept() {
            Ok(client) => Some(client),
            Err(fault) => {
                self.is_paused = fault.kind() != ErrorKind::WouldBlock;
                None
            }
        }
    }

    pub fn pause(&mut self) {
        self.is_paused = true;
    }

    /// Ends a pause, and says whether there was one.
    pub fn resume(&mut self) -> bool {
        let was_paused = self.is_paused;
        self.is_paused = false;
        was_paused
    }
}
