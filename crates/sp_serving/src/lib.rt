//! Scripts of acting sessions that are served on the editions of a run, on one thread.
//!
//! `specs/Replies.antt` says which logs a script has where its commands are served on given editions, and `specs/Laws.antt` what
//! holds of them. `specs/Serving.antt` says how far a script has been served.
#![tactic(auto)]

mod closing;
mod laws;
mod replying;
mod serving;

pub use laws::{names_are_different, transcripts_agree, transcripts_are_legal, transcripts_serve};
pub use serving::{Serving, serve_all};
