//! The text of rows and reports: one line per row, thread or core, with the names of the system.
#![tactic(auto)]

mod bytes;
mod laws;
mod line;
mod lines;
mod lines_part;
mod mark;
mod moment;
mod name;
mod names;
mod page;
mod pour;
mod report;
mod row;
mod text;
mod told;

pub use bytes::{write_counted, write_decimal, write_number, write_word};
pub use laws::{
    given_rows_are_lines, given_rows_are_text, lines_hold_their_rows, texts_are_of_moments,
};
pub use line::{append_number, append_word};
pub use lines::Lines;
pub use lines_part::LinesPart;
pub use mark::Mark;
pub use names::{Names, context_name, is_server, note_name, source_name, thread_name};
pub use page::Page;
pub use pour::pour_lines;
pub use report::{append_counts, put_reports};
pub use row::put_row;
pub use text::Text;
pub use told::ToldLines;
