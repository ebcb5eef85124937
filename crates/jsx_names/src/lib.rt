//! The names of a program, in the order of its text: what is declared, referred to and exported in which scope.
#![tactic(auto)]

mod again;
mod binding;
mod direct;
mod early;
mod event;
mod gather;
mod late;
mod laws;
mod numbers;
mod scopes;
mod seen;
mod wanted;

pub use binding::bindings;
pub use early::check;
pub use event::{EarlyError, Event, Frame, Sort};
pub use laws::{
    answers_of_a_tree, calls_of_a_tree, clashes_of_a_tree, faults_in_order, faults_of_a_tree,
    order_of_events, references_of_a_tree, trees_that_read,
};
pub use numbers::{
    answers_are_numbered, calls_are_numbered, faults_are_numbered, first_has_its_place,
    first_is_least,
};

#[cfg(test)]
mod tests;
