//! What the Dispatcher decides about a request and an answer: whether the request is admitted, under which key its answer may be kept,
//! who may invalidate, and what the publisher is asked (Adobe Dispatcher manual, "Configuring Dispatcher").
#![tactic(auto)]

mod admission;
mod asking;
mod caching;
mod filter;
mod laws;
mod url_parts;

pub use admission::admits;
pub use asking::ask_of;
pub use caching::{auto_of, key_of, may_flush, storable};
pub use laws::{a_request_has_the_page_at_its_path, requests_for_one_page_are_asked_alike};
