//! Texts, paths, property values, requests and answers: what every crate above speaks of.
#![tactic(auto)]

mod answer;
mod bytes;
mod fault_text;
mod field;
mod hint;
mod items;
mod laws;
mod limits;
mod media_type;
mod memory;
mod order;
mod path;
mod path_parts;
mod path_rest;
mod property_list;
mod request;
mod segments;
mod text;
mod typed;
mod value;

pub use answer::{Answer, Ask, Mark};
pub use bytes::{ByteBuf, begins_with_byte};
pub use field::{FieldSpan, field_value};
pub use hint::{Hint, HintedType, ValueFault};
pub use items::{CallList, Items, LongList, NameList, PathList, TextList, TruthList};
pub use laws::{
    a_path_and_its_text, a_path_has_bytes, mangling_and_unmangling, segments_and_their_spelling,
    the_prefixes_of_a_path,
};
pub use limits::{GREATEST_PORT, HTTP_PORT, LONGEST_MEDIA_TYPE, MOST_RENDERED_BYTES};
pub use media_type::is_kind;
pub use memory::{Mem, NoMemory};
pub use path::{Path, PathFault};
pub use property_list::PropList;
pub use request::{LentHead, Req};
pub use segments::{LONGEST_SEGMENT, MOST_SEGMENTS, mangled_parts, seg_ok, text_under};
pub use text::TextBuf;
pub use value::{Value, value_texts};
