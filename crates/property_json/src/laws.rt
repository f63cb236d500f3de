//! Laws of the definitions, on functions that do nothing.
ghost use Rattle.std.specs.Prelude.{◌≡◌, ◌++◌};
ghost use Rattle.json.specs.Json.{Members};
ghost use Rattle.json.specs.Tree.{members_tokens};
ghost use Rattle.sp_base.specs.Texts.{Properties};
ghost use Rattle.property_json.specs.PropertyJson.{members_before, property_tokens};

/// The tokens of an object's members are those of its properties, and then those of the members after them.
pub fn properties_come_first()
    ensures { (props : Properties) (members : Members) → members_tokens (members_before props members)
        ≡ property_tokens props ++ members_tokens members }
{}
