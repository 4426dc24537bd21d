//! Systems: the contents of a file, and when they are well formed.
#![tactic(auto)]

mod delays;
mod equality;
mod lookup;
mod name;
mod part;
mod system;
mod well_formed;

pub use name::Name;
pub use part::{Beat, ChainPart, ContextPart, Link, NotePart, SourcePart, SystemParts, ThreadPart};
pub use system::System;
