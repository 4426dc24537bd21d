//! Laws of the model over the whole schedules of well-formed systems. Each law is the contract of a
//! function with an empty body; a call of the function gives what its contract says.
#![tactic(auto)]

mod laws;

pub use laws::{
    bandwidth_is_bounded, contexts_are_shown, contexts_are_spaced, contexts_have_histories,
    contexts_have_the_budget_in_force, contexts_keep_their_budgets, cores_are_of_turns,
    disciplines_agree, files_stay_in_force, quiet_turns_only_count, rows_are_of_turns,
    signals_are_of_turns, signals_are_said, slices_are_spent_over_time, threads_are_on_time,
    threads_have_one_place, threads_run_within_demand, well_formed_systems_give_budgets,
};
