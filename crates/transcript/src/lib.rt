//! What a script prints: the pieces of its commands, the life of each leaf, the one history of each table, and the
//! answers over these. Definitions alone.
#![tactic(auto)]
