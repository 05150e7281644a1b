// A listing to HP-GL, and the flag that chooses the setting: what the plotting program does, on slices.
#![tactic(auto)]

mod flags;
mod program;

pub use flags::chosen;
pub use program::plot_listing;
