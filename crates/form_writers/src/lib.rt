// A node's tree written out in each form, as a postorder tree. The functions ask for a table that has passed the check and for an index within the result, which
// the rewriter has made sure of; they are called by it alone.
#![tactic(auto)]

pub mod copy;
pub mod core_form;
pub mod negation_form;
pub mod write;
