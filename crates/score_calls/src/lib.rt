//! A scoreboard behind a handle: it takes the words of calls one by one, and answers each call with the last of its words.
#![tactic(auto)]

mod calls;
mod handle;
mod session;
mod words;

pub use handle::Handle;
