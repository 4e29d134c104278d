//! The lines of tests and of their attempts, and the output beside them.

mod abort_line;
mod attempt_output;
mod result_words;
mod status_line;
