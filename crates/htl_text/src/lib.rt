//! Templates: text with expressions of the HTML Template Language in it (HTL specification 1.4, "Expression Language").
#![tactic(auto)]

mod fault;
mod laws;
mod piece;
mod quotes;
mod render;
mod scan;
mod template;

pub use fault::{RenderFault, TextFault};
pub use laws::the_pieces_are_the_text;
pub use piece::TemplatePiece;
pub use template::Template;
