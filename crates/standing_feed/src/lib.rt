//! The standing queries of a run, each fed what the lines of a script's items tell of its leaf's table.
#![tactic(auto)]

mod calls;
mod followed_calls;
mod followed_entries;
mod follower;
mod followers;
mod following;
mod heard;
mod hearing;
mod meaning;
mod meant;
mod place;
mod table_calls;
mod teller;

pub use followed_calls::FollowedCalls;
pub use follower::Follower;
pub use followers::Followers;
pub use heard::Heard;
pub use meant::Meant;
pub use teller::Teller;
