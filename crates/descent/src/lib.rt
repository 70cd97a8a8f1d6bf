// The walk down the columns of a sum, to the first that fixes the answer.
#![tactic(auto)]

mod prompt; // prompt.rt: the columns that fill the target, read at once
mod going; // going.rt: the walk down the columns
mod half; // half.rt: digits that lie inside a half
mod ending; // ending.rt: where the walk ended, what it holds is rounded, or refused

pub use ending::{finish, holds_more};
pub use going::{Verdict, Walked, walk_down};
pub use half::lies_inside;
pub use prompt::{fill, is_inland, is_prompt};
