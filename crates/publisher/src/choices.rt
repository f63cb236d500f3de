// What may be asked for instead of too many levels.
ghost use Rattle.std.specs.Prelude.{◌≡◌, IfOk};
ghost use Rattle.publisher.specs.Choices.{choice, choices, choices_text};

use json::Writer;
use property_json::write_value;
use sp_base::{Mem, Path, TextBuf, TextList, Value};
use std::alloc::Global;

fn choice(alloc: Global, path: &str, depth: u32) -> Mem<TextBuf>
    ensures { IfOk result (λ text. text ≡ choice path.now depth) }
{
    Ok(TextBuf::from(format!(in alloc; "{path}.{depth}.json")?))
}

fn choices(alloc: Global, path: &str, most: u32) -> Mem<TextList>
    ensures { IfOk result (λ list. list ≡ choices path.now most) }
{
    let mut list = TextList::new(alloc);
    for depth in (0..=most).rev() {
        list.push(choice(alloc, path, depth)?)?;
    }
    Ok(list)
}

/// The references of a resource as JSON at the depths from this one down to 0, as a JSON array.
#[tactic(auto, unfolding(crate::specs::Choices::choices_text))]
pub(crate) fn choices_text(alloc: Global, path: &Path, most: u32) -> Mem<TextBuf>
    ensures { IfOk result (λ text. text ≡ choices_text path.now most) }
{
    let list = Value::Texts(choices(alloc, path.as_text(), most)?);
    let mut writer = Writer::new(Vec::new(alloc));
    write_value(&mut writer, &list)?;
    let text = String::from_utf8(writer.into_inner()).unwrap();
    Ok(TextBuf::from(text))
}
