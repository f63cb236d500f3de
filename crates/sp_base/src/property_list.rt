// Property lists: named values, each name once, in the order of the names' bytes.
ghost use Rattle.std.specs.Prelude.{◌≡◌, ◌==◌, ◌<◌, [], ℕ, List, T, not, IfOk, IfErr, OnOk, OnErr, option_copied, option_map, is_some, slice_get, length};
ghost use Rattle.std.specs.FinMap.Entries.{put, find, is_sorted, where_key};
ghost use Rattle.std.specs.Ordering.{eq_by_cmp};
ghost use Rattle.sp_base.specs.Properties.{by_name, text_in};
ghost use Rattle.sp_base.specs.PropertyPlaces.{IsAt, IsGap};

use crate::{Mem, TextBuf, Value};
use std::alloc::Global;
use std::cmp::Ordering;
use std::marker::Model;

/// Named values, each name once, in the order of the names' bytes.
#[derive(Drop)]
pub struct PropList {
    props: Vec<(TextBuf, Value)>,
}

impl Model for PropList {
    ghost use Rattle.std.specs.Prelude.{List, ℕ, T};
    ghost use Rattle.std.specs.FinMap.Entries.{is_sorted};
    ghost use Rattle.sp_base.specs.Names.{by_name};
    ghost use Rattle.sp_base.specs.declared.value.Value.{Value as PropValue};

    ghost Value = { List (List ℕ × PropValue) };

    ghost view = { λ l. l.props.items };

    ghost invariant = { λ l. T (is_sorted by_name l.props.items) };
}

impl PropList {
    pub fn new(alloc: Global) -> PropList
        ensures { result ≡ [] }
    {
        PropList {
            props: Vec::new(alloc),
        }
    }

    pub fn len(&self) -> usize
        ensures len { result ≡ length self.now }
        ensures sorted { T (is_sorted by_name self.now) }
    {
        self.props.len()
    }

    pub fn is_empty(&self) -> bool
        ensures { result ≡ (length self.now == 0) }
    {
        self.props.is_empty()
    }

    /// The value under a name.
    pub fn get(&self, name: &str) -> Option<&Value>
        ensures { option_copied result ≡ find by_name name.now self.now }
    {
        match place_of(&self.props, name) {
            Ok(place) => Some(&self.props[place].1),
            Err(_) => None,
        }
    }

    /// The text under a name, where the value there is one text.
    #[tactic(auto, unfolding(crate::specs::Properties::text_in))]
    pub fn text(&self, name: &str) -> Option<&TextBuf>
        ensures { option_copied result ≡ text_in self.now name.now }
    {
        match self.get(name) {
            Some(Value::Text(text)) => Some(text),
            _ => None,
        }
    }

    /// Sets the value under a name.
    pub fn put(&mut self, alloc: Global, name: &str, value: Value) -> Mem<()>
        ensures ok { OnOk result (self.new ≡ put by_name name.now value self.old) }
        ensures err { OnErr result (self.new ≡ self.old) }
    {
        match place_of(&self.props, name) {
            Ok(place) => {
                self.props[place].1 = value;
                Ok(())
            }
            Err(place) => {
                self.props
                    .insert(place, (TextBuf::of(alloc, name)?, value))?;
                Ok(())
            }
        }
    }

    /// Sets the value under a name that is handed over.
    pub fn put_named(&mut self, name: TextBuf, value: Value) -> Mem<()>
        ensures ok { OnOk result (self.new ≡ put by_name name value self.old) }
        ensures err { OnErr result (self.new ≡ self.old) }
    {
        match place_of(&self.props, name.text()) {
            Ok(place) => {
                self.props[place].1 = value;
                Ok(())
            }
            Err(place) => {
                self.props.insert(place, (name, value))?;
                Ok(())
            }
        }
    }

    /// Takes the value under a name away. The answer says whether there was one.
    pub fn remove(&mut self, name: &str) -> bool
        ensures was { result ≡ is_some (find by_name name.now self.old) }
        ensures new { self.new ≡ where_key by_name (λ key. not (eq_by_cmp by_name name.now key)) self.old }
    {
        match place_of(&self.props, name) {
            Ok(place) => {
                let _ = self.props.remove(place);
                true
            }
            Err(_) => false,
        }
    }

    /// The property at a place, counted from 0.
    pub fn at(&self, place: usize) -> Option<(&str, &Value)>
        ensures { option_map (λ p. (p.0.now, p.1.now)) result ≡ slice_get self.now place }
    {
        match self.props.get(place) {
            Some((name, value)) => Some((name.text(), value)),
            None => None,
        }
    }

    pub fn duplicate(&self, alloc: Global) -> Mem<PropList>
        ensures { IfOk result (λ l. l ≡ self.now) }
    {
        Ok(PropList {
            props: copied(alloc, &self.props)?,
        })
    }
}

// The place of a name, or the place where it would stand.
fn place_of(props: &[(TextBuf, Value)], name: &str) -> Result<usize, usize>
    requires { T (is_sorted by_name props.now) }
    ensures found { IfOk result (IsAt name.now props.now) }
    ensures gap { IfErr result (IsGap name.now props.now) }
{
    let mut low = 0;
    let mut high = props.len();
    while low < high {
        let middle = low + (high - low) / 2;
        match name.cmp(props[middle].0.text()) {
            Ordering::Equal => return Ok(middle),
            Ordering::Less => high = middle,
            Ordering::Greater => low = middle + 1,
        }
    }
    Err(low)
}

fn copied(alloc: Global, props: &[(TextBuf, Value)]) -> Mem<Vec<(TextBuf, Value)>>
    ensures { IfOk result (λ copy. copy.items ≡ props.now) }
{
    let mut copy = Vec::new(alloc);
    for (name, value) in props {
        copy.push((name.duplicate(alloc)?, value.duplicate(alloc)?))?;
    }
    Ok(copy)
}
