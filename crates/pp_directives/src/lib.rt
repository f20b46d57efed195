//! The directives of a source file: which one a line is, the groups of its conditions, and what a condition comes to
//! (C17 6.10.1).
#![tactic(auto)]

mod conditional;
mod defined;
mod directive;
mod directive_name;
mod expression;
mod fault;
mod laws;
mod line_kind;
mod spelled;
#[cfg(test)]
mod tests;
#[cfg(test)]
mod value_tests;

pub use conditional::conditions::Conditions;
pub use defined::{is_defined, resolve_defined, resolve_slice};
pub use directive::Directive;
pub use expression::value::{conditions_are_exact, evaluate};
pub use fault::{ExprFault, StructFault};
pub use laws::{Following, conditions_follow_groups, lines_run_as_their_tree, trees_are_of_roles};
pub use line_kind::directive_of;
