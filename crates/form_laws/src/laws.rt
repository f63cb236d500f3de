//! What a form's fields and names are in the words of their standards: laws of the definitions, on functions that do nothing.
ghost use Rattle.std.specs.Prelude.{◌≡◌, ℕ, List, Some, true};
ghost use Rattle.std.specs.Str.{str_eq_ignore_ascii_case};
ghost use Rattle.sp_base.specs.Texts.{Segments, Text};
ghost use Rattle.form_input.specs.Parameters.{is_type, parameter};
ghost use Rattle.post_plan.specs.Spots.{goal_of, spot_of};
ghost use Rattle.post_plan.specs.declared.spot.Spot.{Spot};
ghost use Rattle.form_laws.specs.DotSegments.{IsRelative, RemovesDots};
ghost use Rattle.form_laws.specs.RelativeNames.{IsGoalOf, IsSpotOf};
ghost use Rattle.form_laws.specs.Spelling.{is_bare_name_byte, is_token_byte, word_named, FieldPiece, IsFieldOf, IsNamedField};

/// A field that its grammar spells is read as that grammar has it, whatever stands in its quotes: its type is the one that is spelled, and
/// the word of a name is that of the first parameter with the name, in either case, of which each byte after a backslash stands for itself.
/// What stands behind a value in quotes changes nothing, nor does another text in a parameter's place, unless it begins with the name and `=`:
/// both without quotes and semicolons. A token is a name.
pub fn parameters_are_as_they_are_spelled()
    ensures field_type { (word text type : Text) (pieces : List FieldPiece) → IsFieldOf text type pieces → is_type word text ≡ str_eq_ignore_ascii_case type word }
    ensures word { (name text type : Text) (pieces : List FieldPiece) → IsNamedField name text type pieces → parameter name text ≡ word_named name pieces }
    ensures token { (b : ℕ) → is_token_byte b ≡ true → is_bare_name_byte b ≡ true }
{}

/// A relative name is a spot of a node exactly where each of its pieces is a segment, `.` or `..`, the last is a segment, none leads above the
/// root, and the path has at most 64 segments and isn't under the two roots (`spot`, `spot_only`). That path is what is left of the node's
/// text, a slash and the name, once the dot segments are removed (RFC 3986, section 5.2.4); nothing else is left of it (`alone`). A name that
/// never climbs out of its node is kept relative to it. So it is of the goal that a word names, from the target's parent and with or without a
/// slash at its end (`goal`, `goal_only`).
pub fn relative_names_are_resolved()
    ensures spot { (node : Segments) (text : Text) (spot : Spot) → IsRelative node text → spot_of node text ≡ Some spot → IsSpotOf node text spot }
    ensures spot_only { (node : Segments) (text : Text) (spot : Spot) → IsRelative node text → IsSpotOf node text spot → spot_of node text ≡ Some spot }
    ensures goal { (target : Segments) (word : Text) (goal : Segments) → IsRelative target word → goal_of target word ≡ Some goal → IsGoalOf target word goal }
    ensures goal_only { (target : Segments) (word : Text) (goal : Segments) → IsRelative target word → IsGoalOf target word goal → goal_of target word ≡ Some goal }
    ensures alone { (input output one other : List ℕ) → RemovesDots input output one → RemovesDots input output other → one ≡ other }
{}
