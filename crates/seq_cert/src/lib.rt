//! The report of a search: what it says line by line, the text of an outcome's report, and the reader that
//! gives a report back. The text is a certificate: its tree lines are the strategy, and its group lines
//! show the lower bound.
#![tactic(auto)]

mod both_ways;
mod by_class;
mod class_reader;
mod classes;
mod due_line;
mod fault;
mod group_reader;
mod groups;
mod head;
mod head_reader;
mod outcome_report;
mod report;
mod report_reader;
mod test_lines;
mod test_reader;
mod tree;
mod tree_reader;
mod words;

pub use both_ways::one_text;
pub use by_class::states_by_class;
pub use fault::{BadCode, BadLine, ReportFault};
pub use groups::comes_before;
pub use outcome_report::report_of;
pub use report::{ClassLine, GroupLine, MissedLine, Report, StateLine, TreeLine};
pub use report_reader::read_report;
pub use tree::lowest_class;

#[cfg(test)]
mod tests;
