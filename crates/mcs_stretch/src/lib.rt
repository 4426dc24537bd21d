//! Laws of stretches, in which a core alone takes the turns of the global clock: inboxes, safe
//! orders of turns, and idle time. Each law is the contract of a function with an empty body; a
//! call of the function gives what its contract says.
#![tactic(auto)]

mod laws;

pub use laws::{
    idle_time_passes, inboxes_join, news_join, orders_give_the_schedule, rows_merge,
    rows_merge_so_far, safe_orders_are_by_scripts, signal_orders_give_the_schedule,
    stretches_are_turns,
};
