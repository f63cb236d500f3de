//! The publisher: what a request is answered on a content tree (Apache Sling, "Rendering content, default GET servlets").
#![tactic(auto)]

mod changes;
mod choices;
mod depths;
mod errors;
mod first_scripts;
mod held_content;
mod kept_index;
mod laws;
mod lent_content;
mod methods;
mod names;
mod page_fault;
mod page_text;
mod pages;
mod parts;
mod posting;
mod posts;
mod ranking;
mod refusal;
mod representations;
mod script_blocks;
mod scripts;
mod serving;
mod setting;
mod shared_blocks;
mod targets;
mod templates;
mod waiting;

pub use laws::{
    a_script_without_blocks_writes_its_pieces, a_script_writes_its_page,
    an_answer_is_one_of_the_cases, kinds_are_short, posts_are_refused_for_causes,
    reads_change_nothing, reads_depend_on_host_port_and_path, refusals_change_nothing,
    representations_fit, requests_keep_content_good, statuses_are_short,
    what_leads_away_is_a_redirect,
};
pub use serving::Publisher;
