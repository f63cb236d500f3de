//! What a GET without a script answers (Apache Sling, "Rendering content, default GET servlets"): a resource as JSON, n
//! levels of it, and the stream of a file.
#![tactic(auto)]

mod answer;
mod kids;
mod laws;
mod lengths;
mod measure;
mod streams;
mod writing;

pub use answer::{Depth, JsonAnswer, json_of};
pub use kids::Kid;
pub use laws::{
    over_is_the_greatest_depth, shown_are_the_objects, sixty_four_levels_are_all,
    streams_have_media_types, texts_read_back,
};
pub use streams::{Stream, stream_of};
