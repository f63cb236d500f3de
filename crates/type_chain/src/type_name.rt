//! Resource types as texts name them.
ghost use Rattle.std.specs.Prelude.{◌≡◌, IfOk, IsTrue, map, string_bytes};
ghost use Rattle.std.specs.List.{slice_split};
ghost use Rattle.sp_base.specs.Bytes.{is_colon};
ghost use Rattle.sp_base.specs.Paths.{is_path, path_in};
ghost use Rattle.resource_tree.specs.Content.{name_of};
ghost use Rattle.type_chain.specs.Types.{type_at_path, same_type, text_with_slashes, type_of};

use sp_base::{Items, Mem, Path};
use std::alloc::{AllocError, Global};

/// A resource type.
#[derive(Drop)]
pub struct TypeName {
    /// Whether the type is a path from the root on. One that isn't stands below a search path.
    pub rooted: bool,
    /// The segments of the type's text.
    pub segs: Path,
}

pub type TypeList = Items<TypeName>;

impl TypeName {
    /// The type that a text names. A colon is read as a slash; a text that spells no path but for a slash before it, or the root,
    /// names none.
    #[tactic(auto, unfolding(crate::specs::Types::type_of))]
    pub fn read(alloc: Global, text: &str) -> Mem<Option<TypeName>>
        ensures { IfOk result (λ o. o ≡ type_of text.now) }
    {
        let text_with_slashes = text_with_slashes(alloc, text)?;
        if text_with_slashes.as_str().starts_with('/') {
            return type_at_path(alloc, true, text_with_slashes.as_str());
        }
        let mut absolute = String::from_str(alloc, "/")?;
        absolute.push_str(text_with_slashes.as_str())?;
        type_at_path(alloc, false, absolute.as_str())
    }

    /// The last segment of the type.
    pub fn label(&self) -> &str
        ensures label { result.now ≡ name_of self.now.segs }
        ensures valid { IsTrue (is_path self.now.segs) }
    {
        self.segs.name()
    }

    /// Whether both are one type.
    pub fn is_same(&self, other: &TypeName) -> bool
        ensures { result ≡ same_type self.now other.now }
    {
        self.rooted == other.rooted && self.segs == other.segs
    }
}

// The text with its colons read as slashes.
fn text_with_slashes(alloc: Global, text: &str) -> Mem<String>
    ensures { IfOk result (λ s. string_bytes s ≡ text_with_slashes text.now) }
{
    Ok(pieces_of(alloc, text)?.join(alloc, "/")?)
}

fn pieces_of(alloc: Global, text: &str) -> Result<Vec<&str>, AllocError>
    ensures { IfOk result (λ pieces. map (λ piece. piece.now) pieces.items ≡ slice_split is_colon text.now) }
{
    text.split(':').collect(alloc)
}

// The type of the path that a text spells: none where it spells no path, or the root.
fn type_at_path(alloc: Global, rooted: bool, text: &str) -> Mem<Option<TypeName>>
    ensures { IfOk result (λ o. o ≡ type_at_path rooted (path_in text.now)) }
{
    match Path::read_or_none(alloc, text)? {
        Some(segs) if segs.depth() > 0 => Ok(Some(TypeName { rooted, segs })),
        _ => Ok(None),
    }
}
