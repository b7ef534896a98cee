//! The plain data of a container: requests, responses, sessions, events, the inputs and outputs of a node,
//! and the two traits that the layers meet at.
//!
//! The lowest floor. Contracts see every type here as a value (numbers, lists, texts, finite maps), without
//! capacities and places. [`Engine`] is what serves, and carries its meaning and its laws;
//! [`Site`] is what takes inputs, a step each. The words are those of Jakarta Servlet 6.0, RFC 9110
//! and RFC 6265. Nothing here reads or writes bytes of a connection or of a disk.
#![tactic(auto)]

mod attributes;
mod blanks;
mod commit;
mod copied;
mod engine;
mod event;
mod field;
mod input;
mod key;
pub mod laws;
mod method;
mod node;
mod outcome;
mod output;
mod packet;
mod page;
mod record;
mod request;
mod response;
mod sequence;
mod session;
mod site;
mod state;
mod text;

pub use attributes::{Attributes, Entries};
pub use blanks::trim;
pub use commit::Commit;
pub use copied::Copied;
pub use engine::{Engine, EngineFault};
pub use event::{Event, Told};
pub use field::{Field, place_of_field, plain_type, set_field};
pub use input::Input;
pub use key::{Key, Moment, NODE_LIMIT, Secret, Token};
pub use method::is_head;
pub use node::{Parked, Setting, Stage};
pub use outcome::{Birth, Fate, Outcome};
pub use output::{Cause, MoveRefusal, Output};
pub use packet::Packet;
pub use page::{phrase, plain_body, plain_page};
pub use record::{Change, Record};
pub use request::{Cookie, Param, Request};
pub use response::Response;
pub use sequence::Sequence;
pub use session::{
    ATTRIBUTE_LIMIT, CONTEXT_LIMIT, NAME_LIMIT, SESSION_LIMIT, Session, VALUE_LIMIT,
};
pub use site::{Site, StepFault};
pub use state::{KEY_LIMIT, KEY_MOST, KeyState, PARK_LIMIT};
pub use text::Text;
