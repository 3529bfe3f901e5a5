// Places on this machine.
use crate::listener::Listener;
use crate::socket_file;
use crate::socket_file::SocketFile;
use crate::wire::Wire;
use outside_io::Place;
use std::alloc::Global;
use std::io;
use std::io::ErrorKind;
use std::net::{Ipv4Addr, SocketAddr, SocketAddrV4, TcpListener, TcpStream};

fn loopback(port: u16) -> SocketAddr {
    SocketAddr::V4(SocketAddrV4::new(Ipv4Addr::LOCALHOST, port))
}

/// A link to a place.
pub(crate) fn dial(rt: &HostRuntime, place: &Place) -> io::Result<Wire> {
    match place {
        Place::Unix(path) => Ok(Wire::Unix(socket_file::dial(rt, path.as_str())?)),
        Place::Tcp(port) => Ok(Wire::Tcp(TcpStream::connect(rt, loopback(*port))?)),
        Place::Streams => Err(io::Error::from(ErrorKind::Unsupported)),
    }
}

/// A place that was opened.
#[derive(Drop)]
pub(crate) struct Opened {
    pub(crate) listener: Listener,
    pub(crate) file: Option<SocketFile>,
}

/// Opens a place for links to come; the standard input and output need no opening.
pub(crate) fn open(rt: &HostRuntime, alloc: Global, place: &Place) -> io::Result<Option<Opened>> {
    match place {
        Place::Unix(path) => {
            let mut file = SocketFile::claim(*rt, alloc, path.as_str())?;
            let listener = Listener::Unix(file.listen()?);
            Ok(Some(Opened {
                listener,
                file: Some(file),
            }))
        }
        Place::Tcp(port) => Ok(Some(Opened {
            listener: Listener::Tcp(TcpListener::bind(rt, loopback(*port))?),
            file: None,
        })),
        Place::Streams => Ok(None),
    }
}
