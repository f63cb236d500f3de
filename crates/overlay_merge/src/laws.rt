//! What is merged in the subject's words: laws of the definitions, on functions that do nothing.
ghost use Rattle.std.specs.Cmp.Lexicographic.{pointwise};
ghost use Rattle.std.specs.List.{IsDistinct};
ghost use Rattle.std.specs.Prelude.{◌≡◌, ◌∷◌, [], All, List, Option, Some, nat_eq, reverse, true, false};
ghost use Rattle.sp_base.specs.Texts.{Segments, Text};
ghost use Rattle.std.specs.List.Sorted.{IsPermutation};
ghost use Rattle.resource_tree.specs.Content.{Content, IsGood, kid};
ghost use Rattle.resource_tree.specs.Seen.{Resource, res_at};
ghost use Rattle.overlay_merge.specs.declared.layers.Layer.{Layer};
ghost use Rattle.overlay_merge.specs.Roots.{is_merged_path, is_parent_of_roots};
ghost use Rattle.overlay_merge.specs.Hiding.{layer_is_cut, merged_from, IsLeftOut};
ghost use Rattle.overlay_merge.specs.Cut.{HidesNothing, IsOfLayer, LayerIsCut, NoLayerIsCut};
ghost use Rattle.overlay_merge.specs.Kids.{all_kids, layers_kids, kids_there, SomeLayerHasKid, GivesKid, IsKidMerged};
ghost use Rattle.overlay_merge.specs.Kids.{names_after_move};
ghost use Rattle.overlay_merge.specs.Layers.{layer_below, override_layers};
ghost use Rattle.overlay_merge.specs.Moves.{AreDistinct, IsMovable, IsNotMoved, KeepsOtherNames, UnmovedKidsAreDistinct, StandsBefore};
ghost use Rattle.overlay_merge.specs.Steps.{AreLayerSteps, AreTheLayersIfSteps, IsBelow};
ghost use Rattle.overlay_merge.specs.Merged.{has_resource, merged_resource, OnlyLayersAreShown, OnlyLayersKeepTheirKids, PropertiesAreOfLayers, KidsAreOfLayers, ListsKid};

/// Elsewhere than under the two roots the node is seen as it is, but that their parent doesn't list them.
pub fn elsewhere_the_node_is_seen()
    ensures { (tree : Content) (path : Segments) → is_merged_path path ≡ false → is_parent_of_roots path ≡ false → merged_resource tree path ≡ res_at tree path }
{}

/// Where one layer alone is a node and it isn't cut, the resource is that node without the four names that steer the merging; its kids are
/// those at which a merged resource is there. They are the node's kids as they stand there, if no layer of a kid is cut either, their paths
/// aren't too deep and none wishes to stand elsewhere. No layer is cut where no node hides anything.
pub fn the_only_layer_is_shown()
    ensures node { OnlyLayersAreShown }
    ensures kids { (tree : Content) (path : Segments) (res : Resource) → IsPermutation (kids_there tree path res.kids) (layers_kids tree path (res ∷ [])) }
    ensures order { OnlyLayersKeepTheirKids }
    ensures hidden { (tree : Content) (path : Segments) → HidesNothing tree → NoLayerIsCut tree path }
{}

/// Each property and each kid that is seen is one of a layer that isn't cut: a layer that is hidden shows in none.
pub fn what_is_seen_is_of_a_layer()
    ensures property { PropertiesAreOfLayers }
    ensures kid { KidsAreOfLayers }
    ensures merged { (tree : Content) (path : Segments) → All (IsOfLayer tree path) (merged_from tree path) }
{}

/// A layer is cut exactly where some node on its path, or on that of a layer above, hides it.
pub fn a_layer_is_cut_by_a_node()
    ensures cut { (tree : Content) (layer : Layer) (above : List Layer) → layer_is_cut tree layer above ≡ true → LayerIsCut tree layer above }
    ensures only { (tree : Content) (layer : Layer) (above : List Layer) → LayerIsCut tree layer above → layer_is_cut tree layer above ≡ true }
{}

/// A layer that is cut adds nothing to what is merged, neither properties nor kids.
pub fn a_cut_layer_is_left_out()
    ensures { (tree : Content) (layer : Layer) (above : List Layer) → layer_is_cut tree layer above ≡ true → IsLeftOut tree layer above }
{}

/// What kids wish of their places changes the order of kids alone.
pub fn wishes_only_reorder()
    ensures { (tree : Content) (path : Segments) (layers : List Resource) → IsPermutation (kids_there tree path (all_kids layers)) (layers_kids tree path layers) }
{}

/// Each kid is a kid of one of the resources that are merged, and a merged resource is at its path. In a good tree something is seen at each
/// kid that is given at any path.
pub fn each_kid_is_there()
    ensures of_a_layer { (tree : Content) (path : Segments) (layers : List Resource) (name : Text) → GivesKid tree path layers name → SomeLayerHasKid layers name }
    ensures there { (tree : Content) (path : Segments) (layers : List Resource) (name : Text) → GivesKid tree path layers name → IsKidMerged tree path name }
    ensures seen { (tree : Content) (path : Segments) (name : Text) → IsGood tree → ListsKid tree path name → has_resource tree (kid path name) ≡ true }
{}

/// The layers of an override are determined by their steps: from the highest down they are those, and those alone, of which the first is the
/// path itself, and each is followed by the layer below it, up to a path that came before or the bound (`steps`, `alone`). The layer below a
/// path is where the deepest node on it that names a super type leads, with what follows that node (`found`, `only`).
pub fn the_layers_of_an_override_are_determined()
    ensures steps { (tree : Content) (seg : Text) (segs : Segments) → AreLayerSteps tree (seg ∷ segs) (reverse (override_layers tree (seg ∷ segs))) }
    ensures alone { (tree : Content) (seg : Text) (segs : Segments) (layers : List Layer) → AreTheLayersIfSteps tree (seg ∷ segs) layers }
    ensures found { (tree : Content) (path : Segments) (layer : Layer) → layer_below tree path ≡ Some layer → IsBelow tree path layer }
    ensures only { (tree : Content) (path : Segments) (layer : Layer) → IsBelow tree path layer → layer_below tree path ≡ Some layer }
{}

/// A kid that is moved stands directly before the one that it names and nowhere else, and the others keep their order, where both are there
/// and no name is there twice (`directly`, `others`). Without a wish, where it names itself or where one of the two isn't there, nothing moves
/// (`stays`). In a good tree no name is twice among the kids that are ordered (`kids`), nor after a move (`after`).
pub fn a_moved_kid_stands_before_the_one_it_names()
    ensures directly { (name other : Text) (names : List Text) → IsMovable names name other → StandsBefore (names_after_move name (Some other) names) name other }
    ensures others { (name other : Text) (names : List Text) → IsMovable names name other → KeepsOtherNames name names (names_after_move name (Some other) names) }
    ensures stays { (name : Text) (wish : Option Text) (names : List Text) → IsNotMoved names name wish → names_after_move name wish names ≡ names }
    ensures kids { UnmovedKidsAreDistinct }
    ensures after { (name : Text) (wish : Option Text) (names : List Text) → AreDistinct names → AreDistinct (names_after_move name wish names) }
{}
