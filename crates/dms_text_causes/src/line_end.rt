//! What stands alone in its line.

ghost use Rattle.std.specs.Prelude.{◌≡◌, []};
ghost use Rattle.std.specs.Result.{result_ok, result_err};
ghost use Rattle.dms_text_forms.specs.FieldsReading.{if_last};
ghost use Rattle.dms_text_forms.specs.Form.{fault_from};

use dms_text_forms::{LineWords, WordFault};

/// The value, where no words are left.
pub fn if_last<T: Drop>(words: LineWords<'_>, value: T) -> Result<T, WordFault>
    ensures value { result_ok result ≡ if_last value words.entry.words }
    ensures fault { result_err result ≡ fault_from words.entry.place [] words.entry.words }
{
    words.end()?;
    Ok(value)
}
