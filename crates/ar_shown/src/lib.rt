//! What a service shows of its array in numbers: its status, and what has happened since the last look. It knows no
//! orders, doors, threads or locks, so that it is proved beside them.
#![tactic(auto)]

mod lengths;
mod shown;

pub use shown::{Beside, health_of, see_array, status_with};
