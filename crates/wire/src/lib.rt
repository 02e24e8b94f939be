//! Frames on a stream that comes in pieces, and the requests and responses that they carry.
//!
//! Callers can rely on this: where a stream is cut does not matter, reading accepts exactly the forms,
//! and a frame that is written into reserved room is written whole.
//!
//! ```
//! let mut feed = Feed::new(alloc);
//! feed.feed(piece)?;
//! while let Next::Frame(kind, body) = feed.next() {
//!     match Request::read(kind, body) {
//!         Ok(Request::Query(Query::Head)) => Answer::Root(directory.head()).write(&mut output)?,
//!         // .. the other requests
//!         Err(why) => Answer::Refused(why.number()).write(&mut output)?,
//!     }
//! }
//! ```
#![tactic(auto)]

mod answer;
mod feed;
mod frame;
mod laws;
mod message_refusals;
mod request;
mod response;
mod writing;

pub use answer::{Answer, MAX_ANSWER_LEN};
pub use feed::{Feed, LENGTH_SIZE, Next};
pub use frame::{FrameView, Front, MAX_FRAME_LEN, front_of, is_frame_size};
pub use laws::{
    answers_are_read, body_spells_one_request, body_spells_one_response, cutting_does_not_matter,
    frames_are_read, kinds_have_their_bytes, limits_have_their_values, messages_are_computed,
    stream_splits_once,
};
pub use message_refusals::{FeedRefusal, ReadRefusal};
pub use request::Request;
pub use response::{PROMISED, PROOF, Response};
pub use writing::{begin_proof, end_proof};
