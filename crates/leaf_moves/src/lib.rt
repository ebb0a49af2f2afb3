//! How a run moves the seats and leaves that it holds: what a call, a deed and a meeting make of them, what a command does, and how lanes are cut off and taken back; and what the notes of a steward tell.
#![tactic(auto)]
