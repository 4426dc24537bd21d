//! Likely mistakes in a system, found from its file alone: no thread or no deadline, notifications
//! that are never signalled, chains that no signal can complete, contexts and cores without a
//! thread, and cores whose total utilisation exceeds 100 %.
#![tactic(auto)]

mod all;
mod carried;
mod ceilings;
mod chains;
mod contexts;
mod cores;
mod exact;
mod handlers;
mod hint;
mod keep;
mod notes;
mod shares;
mod whole;

pub use all::hints;
pub use hint::Hint;
