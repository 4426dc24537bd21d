//! The lines of a check in each format: findings, jobs, answers, figures, unjudged threads, hints
//! and counts. The counts of findings, and the exit code.
#![tactic(auto)]

mod answer_line;
mod chain_figures;
mod chain_line;
mod checked;
mod columns;
mod counts;
mod deadlines;
mod fields;
mod figures;
mod format;
mod hint_line;
mod hint_object;
mod job_line;
mod line;
mod pairs;
mod shown;
mod thread_line;
mod unjudged;
mod untaken_line;

pub use answer_line::put_answers;
pub use chain_figures::put_chains;
pub use chain_line::put_chains_found;
pub use checked::{ChainCounts, Checked, Scope, code};
pub use columns::put_head;
pub use counts::{Counts, is_allowed};
pub use deadlines::{chain_deadlines, thread_deadlines};
pub use figures::put_table;
pub use format::{is_mixed, put_counts_as, put_found_as, put_shown};
pub use hint_line::{put_hint, put_hint_as};
pub use line::{put_counts, put_found, put_job};
pub use pairs::put_line;
pub use shown::Shown;
pub use unjudged::{Unjudged, put_unjudged_as};
