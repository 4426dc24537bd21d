//! Worked systems: their schedules as theorems of the definitions.
#![tactic(auto)]
