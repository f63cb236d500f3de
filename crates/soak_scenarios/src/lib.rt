//! Scenarios that are made from a number: a site of 64 pages, and some 21,000 events that are drawn. The same number makes the same
//! scenario on every machine.
#![tactic(auto)]

mod draft;
mod rounds;
mod scenario;
mod site;

pub use scenario::generated;
