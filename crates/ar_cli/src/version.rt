// The version of the programs.

/// The version of all programs of this repository.
pub const VERSION: &str = "0.4.0";
