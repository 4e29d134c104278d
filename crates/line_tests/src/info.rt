//! The responses of units that are asked for their state.

mod state;
