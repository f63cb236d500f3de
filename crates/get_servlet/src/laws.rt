//! Laws of the definitions, on functions that do nothing.
ghost use Rattle.std.specs.Prelude.{◌≡◌, ◌≤◌, ◌↔◌, ℕ, IsTrue, Some};
ghost use Rattle.sp_base.specs.MediaTypes.{is_kind};
ghost use Rattle.sp_base.specs.Paths.{most_segments};
ghost use Rattle.resource_tree.specs.Seen.{Resource, Seen};
ghost use Rattle.get_servlet.specs.declared.answer.JsonAnswer.TheVariants.{Over};
ghost use Rattle.get_servlet.specs.declared.streams.Stream.{Stream};
ghost use Rattle.get_servlet.specs.Streams.{stream_of};
ghost use Rattle.get_servlet.specs.Answers.{json_answer, IsOver};
ghost use Rattle.get_servlet.specs.Objects.{objects_in, HasLongs, HaveLongs};
ghost use Rattle.get_servlet.specs.Rendering.{resource_json, json_text, shown_count, IsReadBackAsJson};

/// A path has at most 64 segments, so whoever asks for more levels is shown no more.
pub fn sixty_four_levels_are_all()
    ensures { (seen : Seen) (depth : ℕ) (res : Resource) → most_segments ≤ depth → json_text seen depth res ≡ json_text seen most_segments res }
{}

/// The resources that are shown are the objects in the JSON: no property is an object, and each resource is one.
pub fn shown_are_the_objects()
    ensures { (seen : Seen) (depth : ℕ) (res : Resource) → shown_count seen res depth ≡ objects_in (resource_json seen depth res.path res) }
{}

/// The text is a JSON text (RFC 8259) of the very value, whatever the depth.
pub fn texts_read_back()
    ensures { (seen : Seen) (depth : ℕ) (res : Resource) → HasLongs res → HaveLongs seen → IsReadBackAsJson seen depth res }
{}

/// A depth is named instead exactly where it is the greatest that is 1 or shows at most 1,000 resources, and the one asked for
/// is greater and shows more.
pub fn over_is_the_greatest_depth()
    ensures { (seen : Seen) (res : Resource) (depth most_bytes most : ℕ) → (json_answer seen res depth most_bytes ≡ Over most) ↔ IsOver seen res depth most }
{}

/// The media type of a file is one that may be kept and sent.
pub fn streams_have_media_types()
    ensures { (seen : Seen) (res : Resource) (stream : Stream) → stream_of seen res ≡ Some stream → IsTrue (is_kind stream.kind) }
{}
