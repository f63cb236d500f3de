// What a text is mapped to.
use sp_base::TextBuf;

/// What the path of a request is mapped to.
#[derive(Drop)]
pub enum MapAnswer {
    /// The text of a path within the content, with selectors, extension and suffix as the request had them.
    Inside(TextBuf),
    /// A redirect: its status, and the target as it stands in the content, not yet escaped.
    Away(u16, TextBuf),
}
