// Good form and sizes, decided: a function for each definition of the rules' Sizes and GoodForm.
#![tactic(auto)]

mod places;
mod processes;
mod sizes;
mod within; // within.rt: settings within the sizes, of which the tests here are methods
mod words;

pub use places::value_fits;
pub use sizes::{settings_fit, words_used};
pub use words::in_good_form;
