//! Edits of flow graphs.
//!
//! In goes a graph; an `Editor` puts new assignments before its nodes and changes others, one at a time, and out comes
//! the edited graph. Where assignments are only removed, `without_flagged` does so in place, with no memory. The
//! definitions in `specs/` say which graph this is, edit by edit and of all edits together. The laws beside them say
//! when it does the same and what is assigned on each of its paths: passes that move assignments are proved by them.
//! A `GraphFlow` has the edges and the blocks of a graph; it is made once, and serves as long as edits change no edge.
#![tactic(auto)]

mod editor;
mod flagged;
mod flow;
mod kinds;

pub use editor::Editor;
pub use flagged::without_flagged;
pub use flow::GraphFlow;
pub use kinds::{is_skip, touches_none};
