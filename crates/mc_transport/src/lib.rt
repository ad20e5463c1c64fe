//! Lines and how one is served: the trait `Transport`, the bytes read and not taken yet, and the
//! replies not written yet. Each write requires a warrant.
#![tactic(auto)]

mod buffer_pool;
mod buffered_conn;
mod clerk;
mod laws;
mod line_buffers;
mod read_buffer;
mod read_side;
mod reply_memory;
mod transport;
mod warrant;
mod write_buffer;

pub use buffer_pool::BufferPool;
pub use buffered_conn::{BufferedConn, LineStep, RestingLine, Served};
pub use clerk::Clerk;
pub use laws::{heard_replies_answer_their_pieces, recorded_pieces_are_next_on_their_channels};
pub use line_buffers::{LineBuffers, new_buffers};
pub use transport::{Clock, Ready, Taking, Transport, TransportError};
pub use warrant::Warrant;
pub use write_buffer::WriteBuffer;
