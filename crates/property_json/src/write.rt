// Writes values and properties as JSON.
ghost use Rattle.std.specs.Prelude.{◌≡◌, IfOk, OnOk, T, true};
ghost use Rattle.std.specs.FinMap.Entries.{is_sorted};
ghost use Rattle.std.specs.List.{list_all};
ghost use Rattle.json.specs.Json.{boolean, string, array};
ghost use Rattle.json.specs.Tree.{json_tokens};
ghost use Rattle.sp_base.specs.Names.{by_name};
ghost use Rattle.property_json.specs.PropertyJson.{fits_i64, has_longs, Adds, items_of, json_of_long, json_of_value, property_tokens, properties_text};

use json::Writer;
use sp_base::{LongList, Mem, PropList, TextBuf, TextList, TruthList, Value};
use std::alloc::{AllocError, Global};

/// Writes an array of texts. Out of memory, some of it may be written.
pub fn write_texts(writer: &mut Writer, texts: &TextList) -> Result<(), AllocError>
    ensures { OnOk result (Adds writer.old writer.new (json_tokens (array (items_of string texts.now)))) }
{
    writer.begin_array()?;
    for text in texts.as_slice() {
        writer.string(text.text())?;
    }
    writer.end_array()?;
    Ok(())
}

// Writes a number, which is one of 64 bits.
fn write_long(writer: &mut Writer, number: i64) -> Result<(), AllocError>
    ensures tokens { OnOk result (Adds writer.old writer.new (json_tokens (json_of_long number))) }
    ensures long { fits_i64 number ≡ true }
{
    writer.i64(number)
}

fn write_longs(writer: &mut Writer, numbers: &LongList) -> Result<(), AllocError>
    ensures tokens { OnOk result (Adds writer.old writer.new (json_tokens (array (items_of json_of_long numbers.now)))) }
    ensures longs { OnOk result (list_all fits_i64 numbers.now ≡ true) }
{
    writer.begin_array()?;
    for number in numbers.as_slice() {
        write_long(writer, *number)?;
    }
    writer.end_array()?;
    Ok(())
}

fn write_truths(writer: &mut Writer, truths: &TruthList) -> Result<(), AllocError>
    ensures { OnOk result (Adds writer.old writer.new (json_tokens (array (items_of boolean truths.now)))) }
{
    writer.begin_array()?;
    for truth in truths.as_slice() {
        writer.boolean(*truth)?;
    }
    writer.end_array()?;
    Ok(())
}

/// Writes a value. Out of memory, some of it may be written.
pub fn write_value(writer: &mut Writer, value: &Value) -> Result<(), AllocError>
    ensures tokens { OnOk result (Adds writer.old writer.new (json_tokens (json_of_value value.now))) }
    ensures longs { OnOk result (has_longs value.now ≡ true) }
{
    match value {
        Value::Text(text) => writer.string(text.text()),
        Value::Long(number) => write_long(writer, *number),
        Value::Truth(truth) => writer.boolean(*truth),
        Value::Texts(texts) => write_texts(writer, texts),
        Value::Longs(numbers) => write_longs(writer, numbers),
        Value::Truths(truths) => write_truths(writer, truths),
    }
}

/// Writes properties as members, without the braces. Out of memory, some of them may be written.
pub fn write_properties(writer: &mut Writer, props: &PropList) -> Result<(), AllocError>
    ensures tokens { OnOk result (Adds writer.old writer.new (property_tokens props.now)) }
    ensures longs { OnOk result (list_all (λ p. has_longs p.1) props.now ≡ true) }
    ensures sorted { T (is_sorted by_name props.now) }
{
    for place in 0..props.len() {
        if let Some((name, value)) = props.at(place) {
            writer.key(name)?;
            write_value(writer, value)?;
        }
    }
    Ok(())
}

/// The compact text of an object with these properties.
pub fn object_text(alloc: Global, props: &PropList) -> Mem<TextBuf>
    ensures { IfOk result (λ t. t ≡ properties_text props.now) }
{
    let mut writer = Writer::new(Vec::new(alloc));
    writer.begin_object()?;
    write_properties(&mut writer, props)?;
    writer.end_object()?;
    let text = String::from_utf8(writer.into_inner()).unwrap();
    Ok(TextBuf::from(text))
}
