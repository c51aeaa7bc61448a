//! Connections that are served as polled tasks on one thread: each connection's frames go to the book of the rank that
//! it is for.
#![tactic(auto)]

mod accepting;
mod answering;
mod connection;
mod faults;
mod hall;
mod offering;
mod settling;
mod turning;
