//! What is written once for each item of a list.

use crate::attribute::Body;
use htl_expr::Listed;
use htl_text::Template;

/// The list of an element, its items, the variable that has them, and what the element has in place of its content.
#[derive(Drop)]
pub struct Repetition<'v, 'a> {
    pub name: &'a str,
    pub list: &'a Template,
    pub items: Listed<'v>,
    pub body: &'a Option<Body>,
}
