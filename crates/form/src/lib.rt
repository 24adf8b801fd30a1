// Whether a sheet is well formed, word by word and chain by chain.
#![tactic(auto)]

mod chains;
mod check;
mod field;
mod header;
mod records;

pub use check::check_form;
