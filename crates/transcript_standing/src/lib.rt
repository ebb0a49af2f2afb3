//! The law of standing queries in a run: if they followed the lines, they told what they should.
#![tactic(auto)]

mod laws;

pub use laws::standing_queries_follow;
