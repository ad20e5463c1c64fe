//! Sources of connections for the slots, and the thread that accepts sockets. A source accepts one
//! connection at a time and takes it back after it was served. `SingleSource` has a single line in
//! memory. `StreamSource` has the streams of its slot, such as sockets from the accepting thread.
#![tactic(auto)]

mod acceptor;
mod arrivals;
mod beginning;
mod connection_source;
mod foreign;
mod free_seats;
mod lingering;
mod listener;
mod single_source;
mod socket;
mod stream;
mod stream_source;
mod tap;
mod tcp_connection;
mod trail;

pub use acceptor::{Acceptor, AcceptorHandle, Handoff};
pub use arrivals::{Arrivals, NewStream};
pub use connection_source::{Accept, ConnectionSource};
pub use listener::Listener;
pub use single_source::{ReturnedLine, ServedLine, SingleSource};
pub use socket::Socket;
pub use stream::Stream;
pub use stream_source::{ClosedConnection, StreamSource};
pub use tcp_connection::TcpConnection;
pub use trail::Trail;
