// SPDX-License-Identifier: Apache-2.0
//! The text of a float, as a function of the float: the fewest digits of 15, 16 and 17 that read back as it, laid out
//! as Rust's `ryu` does. A clause can name that text, and it is proved to read back.
#![tactic(auto)]

mod decimal;
pub mod laws;
mod layout;
mod limbs;
mod shortest;
mod text;

pub use text::FloatText;
