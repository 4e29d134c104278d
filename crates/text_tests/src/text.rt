//! Escape sequences, indentation, columns and numbers, and how tests, scripts and paths are shown.

mod escapes;
mod fitting;
mod helpers;
mod indenter;
mod reporter_helpers;
mod stripped;
mod text_buffer;
