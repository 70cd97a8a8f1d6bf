// What is known of a sum after so many columns, and the way of a mode.
#![tactic(auto)]

mod rows; // rows.rt: what is known of a sum after so many columns

pub use rows::{Pair, Row, Way, row_of, way_of};
