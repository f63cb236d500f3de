//! The form of a POST: the pairs of names and words that its body spells (Apache Sling, "SlingPostServlet"; RFC 7578).
#![tactic(auto)]

mod boundary;
mod fault;
mod form;
mod laws;
mod lines;
mod multipart;
mod parameters;
mod part;

pub use fault::FormFault;
pub use form::{Form, MOST_PAIRS, read_form};
pub use laws::{
    bodies_are_refused_for_their_first_fault, forms_are_refused_for_causes,
    lines_are_cut_at_their_ends, the_parts_are_the_body,
};
