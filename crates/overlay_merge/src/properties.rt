// The properties of a merged resource. They are lent by the layers until all are merged.
ghost use Rattle.std.specs.Prelude.{◌≡◌, not, IfOk, OnOk};
ghost use Rattle.std.specs.List.{list_any};
ghost use Rattle.std.specs.Option.{option_copied};
ghost use Rattle.std.specs.FinMap.Entries.{where_key};
ghost use Rattle.sp_base.specs.Names.{by_name};
ghost use Rattle.overlay_merge.specs.Hiding.{text_stands_for, lists_name};
ghost use Rattle.overlay_merge.specs.Properties.{merged_props, put_all, with_layer, without_steering};

use crate::lent_props::LentProps;
use resource_tree::Res;
use sp_base::{Mem, PropList, TextBuf, Value, value_texts};
use std::alloc::Global;

// Puts properties over others.
fn put_all<'a>(props: &mut LentProps<'a>, upper: &'a PropList) -> Mem<()>
    ensures { OnOk result (props.new ≡ put_all props.old upper.entry.now) }
{
    for place in 0..upper.len() {
        let Some((name, value)) = upper.at(place) else {
            return Ok(());
        };
        props.put(name, value)?;
    }
    Ok(())
}

// Takes away the properties that a text stands for.
fn hide_by(props: &mut LentProps<'_>, text: &str)
    ensures { props.new ≡ where_key by_name (λ name. not (text_stands_for name text.now)) props.old }
{
    if text == "*" {
        props.clear();
    } else {
        props.remove(text);
    }
}

fn hide_by_all(props: &mut LentProps<'_>, texts: &[TextBuf])
    ensures { props.new ≡ where_key by_name (λ name. not (list_any (text_stands_for name) texts.now)) props.old }
{
    for text in texts {
        hide_by(props, text.text());
    }
}

// Takes away the properties that a value names, which is a text or texts.
fn hide(props: &mut LentProps<'_>, value: Option<&Value>)
    ensures { props.new ≡ where_key by_name (λ name. not (lists_name (option_copied value.entry) name)) props.old }
{
    hide_by_all(props, value_texts(value));
}

#[tactic(auto, unfolding(crate::specs::Properties::with_layer))]
fn add_layer<'a>(props: &mut LentProps<'a>, layer: &'a Res<'_>) -> Mem<()>
    ensures { OnOk result (props.new ≡ with_layer props.old layer.entry.now) }
{
    hide(props, layer.props().get("sling:hideProperties"));
    put_all(props, layer.props())
}

fn remove_steering(props: &mut LentProps<'_>)
    ensures { props.new ≡ without_steering props.old }
{
    props.remove("sling:hideResource");
    props.remove("sling:hideProperties");
    props.remove("sling:hideChildren");
    props.remove("sling:orderBefore");
}

/// The properties of layers, the lowest first.
#[tactic(auto, unfolding(crate::specs::Properties::merged_props))]
pub(crate) fn merged_props(alloc: Global, layers: &[Res<'_>]) -> Mem<PropList>
    ensures { IfOk result (λ props. props ≡ merged_props layers.now) }
{
    let mut props = LentProps::new(alloc);
    for layer in layers {
        add_layer(&mut props, layer)?;
    }
    remove_steering(&mut props);
    props.copied(alloc)
}
