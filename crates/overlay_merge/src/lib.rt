//! Merged resources: what is seen at a path when overlays and overrides are merged (Apache Sling, "Resource Merger").
#![tactic(auto)]

mod along;
mod hiding;
mod kids;
mod laws;
mod layers;
mod lent_props;
mod merged_resources;
mod merging;
mod order;
mod properties;
mod reach;
mod roots;
mod slots;
mod view;

pub use along::AlongView;
pub use laws::{
    a_cut_layer_is_left_out, a_layer_is_cut_by_a_node, a_moved_kid_stands_before_the_one_it_names,
    each_kid_is_there, elsewhere_the_node_is_seen, the_layers_of_an_override_are_determined,
    the_only_layer_is_shown, what_is_seen_is_of_a_layer, wishes_only_reorder,
};
pub use layers::Layer;
pub use merging::{has_resource, merged, merged_alone, merged_kids, merged_with_kid};
pub use roots::is_merged_path;
pub use view::MergedView;
