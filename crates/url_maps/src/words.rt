// The number of a property.
ghost use Rattle.std.specs.Prelude.{◌≡◌, option_copied};
ghost use Rattle.url_maps.specs.Words.{mapping_number};

use sp_base::Value;

pub(crate) fn number(value: Option<&Value>) -> Option<i64>
    ensures { result ≡ mapping_number (option_copied value.entry) }
{
    match value {
        Some(Value::Long(n)) => Some(*n),
        _ => None,
    }
}
