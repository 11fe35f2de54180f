//! The commands as calls for C. Each takes its inputs as bytes and a buffer for its text, and returns the status
//! that the program has for the same inputs. It writes as much of the text as fits, and the size of the whole. It
//! keeps nothing: the memory that it takes it gives back.
#![tactic(auto)]

mod dialogues;
mod inputs;
mod judging;
mod putting;
mod scripts;
mod showing;
