//! Line writers over a [`Sink`](hz_outside::Sink), without allocation.
//!
//! A line that is composed here is put by itself: by one put if it fits the buffer of a [`Line`], and buffer by buffer if it is longer.
//! Lines that a caller keeps as one text, as a plate does, are given by one call of [`end_by`](Writer::end_by), and one put carries up
//! to 4,096 bytes of them. No call here runs out of memory by itself.
//!
//! | Module | What lives in it |
//! |---|---|
//! | `writer` | [`Writer`]: a writer of lines, which keeps its first fault |
//! | `pieces` | [`Piece`]: what a line is made of |
//! | `line` | [`Line`]: a line that is composed piece by piece, of any length |
#![tactic(auto, using(crate::proofs::Writers::writes_then, crate::proofs::Writers::writes_nothing))]

mod line;
mod pieces;
mod writer;

pub use line::{BUFFER_SIZE, Line};
pub use pieces::Piece;
pub use writer::{Writer, put_line};
