//! The tests, by what they run.
mod check_words;
mod devices;
mod failing;
mod faults;
mod gates;
mod runs;
mod words;
mod worked;
