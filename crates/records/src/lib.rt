// Bench records: twelve bytes in, twelve bytes out. All that the bench program does but reading and writing.
#![tactic(auto)]

pub mod codec;
pub mod play;
