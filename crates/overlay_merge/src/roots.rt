// The paths below which resources are merged.
ghost use Rattle.std.specs.Prelude.{◌≡◌, ◌∷◌, [], nat_eq};
ghost use Rattle.std.specs.Prelude.{slice_get};
ghost use Rattle.std.specs.Option.{option_map_or};
ghost use Rattle.std.specs.Prelude.{false};
ghost use Rattle.std.specs.Cmp.Lexicographic.{pointwise};
ghost use Rattle.sp_base.specs.Paths.{is_under};
ghost use Rattle.overlay_merge.specs.Roots.{is_overlay, is_override, is_merged_path, is_parent_of_roots, is_name_of_root};

use sp_base::Path;

// Whether a path has this segment at a place.
fn has_segment(path: &Path, place: usize, name: &str) -> bool
    ensures { result ≡ option_map_or (pointwise nat_eq name.now) (slice_get path.now place) false }
{
    match path.seg(place) {
        Some(segment) => name == segment,
        None => false,
    }
}

// Whether a path begins with these two segments.
fn is_below(path: &Path, first: &str, second: &str) -> bool
    ensures { result ≡ is_under path.now (first.now ∷ second.now ∷ []) }
{
    has_segment(path, 0, first) && has_segment(path, 1, second)
}

/// Whether a path is under the root of overlays.
pub(crate) fn is_overlay(path: &Path) -> bool
    ensures { result ≡ is_overlay path.now }
{
    is_below(path, "mnt", "overlay")
}

/// Whether a path is under the root of overrides.
pub(crate) fn is_override(path: &Path) -> bool
    ensures { result ≡ is_override path.now }
{
    is_below(path, "mnt", "override")
}

/// Whether what is at a path is merged.
pub fn is_merged_path(path: &Path) -> bool
    ensures { result ≡ is_merged_path path.now }
{
    is_overlay(path) || is_override(path)
}

/// Whether a path is the parent of the two roots.
pub(crate) fn is_parent_of_roots(path: &Path) -> bool
    ensures { result ≡ is_parent_of_roots path.now }
{
    path.as_text() == "/mnt"
}

/// Whether one of the two roots has this name.
pub(crate) fn is_name_of_root(name: &str) -> bool
    ensures { result ≡ is_name_of_root name.now }
{
    name == "overlay" || name == "override"
}
