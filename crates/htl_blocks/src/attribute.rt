//! Block statements with their values.

use htl_text::Template;
use sp_base::TextBuf;

/// What an element has in place of its content.
#[derive(Drop)]
pub enum Body {
    /// The printed value.
    Text(Template),
    /// The text of a script.
    Include(Template),
    /// The text of a resource.
    Resource(Template),
}

/// When an element's tags are left out.
#[derive(Drop)]
pub enum Unwrap {
    Always,
    /// Where the value isn't false.
    Where(Template),
}

/// A block statement. A value is a template of one piece at most: an expression or plain text.
#[derive(Drop)]
pub enum Attribute {
    Test(Template),
    /// With the variable that has the items.
    List(TextBuf, Template),
    Body(Body),
    Unwrap(Unwrap),
}

/// The block statements of an element, of each kind one at most.
#[derive(Drop)]
pub struct Attributes {
    pub test: Option<Template>,
    /// The variable that has the items, and the list.
    pub list: Option<(TextBuf, Template)>,
    pub body: Option<Body>,
    pub unwrap: Option<Unwrap>,
}
