//! What the chain is in the subject's words: laws of the definitions, on functions that do nothing.
ghost use Rattle.std.specs.Prelude.{◌≡◌, ◌≤◌, ◌<◌, ◌+◌, ℕ, List, Option, Some, None, IsTrue, length};
ghost use Rattle.std.specs.List.{IsDistinct};
ghost use Rattle.resource_tree.specs.Content.{Content};
ghost use Rattle.sp_base.specs.Texts.{Properties, Text};
ghost use Rattle.type_chain.specs.declared.type_name.TypeName.{TypeName};
ghost use Rattle.type_chain.specs.Types.{same_type, type_of};
ghost use Rattle.type_chain.specs.Chain.{chain_of, default_type, has_type, most_types, own_super, own_types, super_of, super_type, type_text, with_default, HasTypeAt, IsSuperOrDefaultIfNext, IsSecondIfOtherSuper, IsFirstIfSuper, IsSuperIfNamed};
ghost use Rattle.type_chain.specs.Steps.{AreOwnTypes, SuperTypesFollow, DefaultTypesEndChains};

/// A chain begins with the resource's type, where it has one.
pub fn the_own_type_is_first()
    ensures { (tree : Content) (props : Properties) (own : TypeName) → type_of (type_text props) ≡ Some own → HasTypeAt tree props 0 own }
{}

/// After the first type each is the super type of the one before it, or the default type.
pub fn each_type_is_the_super_type_of_the_one_before()
    ensures { (tree : Content) (props : Properties) (k : ℕ) (t next : TypeName) → 0 < k → HasTypeAt tree props k t → IsSuperOrDefaultIfNext tree props k t next }
{}

/// The first step: after the resource's own type comes the super type that the resource's own text names, else that of its type. A
/// resource without a type begins with the super type of its own text.
pub fn the_super_type_of_the_resource_is_next()
    ensures typed { (tree : Content) (props : Properties) (own next : TypeName) → type_of (type_text props) ≡ Some own → IsSecondIfOtherSuper tree props own next }
    ensures untyped { (tree : Content) (props : Properties) (next : TypeName) → type_of (type_text props) ≡ None → IsFirstIfSuper tree props next }
    ensures own_text { (tree : Content) (props : Properties) (own : Option TypeName) (text : Text) → IsSuperIfNamed tree props own text }
    ensures of_the_type { (tree : Content) (props : Properties) (own : TypeName) → own_super props ≡ None → super_of tree props (Some own) ≡ super_type tree own }
{}

/// A super type that is there follows: of a type after the first, other than the default type and the last of the most types, unless it came
/// before.
pub fn a_super_type_follows()
    ensures { SuperTypesFollow }
{}

/// Where the chain ends: after a type with no super type but one that came before, and after the most types, comes the default type, or
/// nothing.
pub fn the_default_type_ends_the_chain()
    ensures { DefaultTypesEndChains }
{}

/// No type stands twice in a chain.
pub fn no_type_repeats()
    ensures { (tree : Content) (props : Properties) → IsDistinct same_type (chain_of tree props) }
{}

/// A chain has the default type, and at most 32 before it.
pub fn a_chain_is_short()
    ensures default { (tree : Content) (props : Properties) → IsTrue (has_type default_type (chain_of tree props)) }
    ensures short { (tree : Content) (props : Properties) → length (chain_of tree props) ≤ most_types + 1 }
{}

/// The chain is determined by its steps: the types before the default type are those, and those alone, of which the first is the
/// resource's own type or its super type, and each is followed by the super type that it gives, up to a repeat or the bound.
pub fn the_chain_is_determined()
    ensures steps { (tree : Content) (props : Properties) → AreOwnTypes tree props (own_types tree props (type_of (type_text props))) }
    ensures alone { (tree : Content) (props : Properties) (types : List TypeName) → AreOwnTypes tree props types → chain_of tree props ≡ with_default types }
{}
