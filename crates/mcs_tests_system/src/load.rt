//! Files, and the systems or the faults that loading them returns.

mod faults;
mod faults_of_threads;
mod files;
mod limits;
mod links;
mod modes;
mod most;
mod servers;
mod sources;
mod whole;
