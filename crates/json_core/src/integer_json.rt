//! How an integer stands in JSON.

ghost use Rattle.std.specs.Prelude.{◌≡◌};

/// How an integer stands in JSON.
#[derive(Clone, Copy)]
pub(crate) enum IntegerJson {
    /// As a number.
    Number,
    /// As a text of its decimal digits.
    Text,
}

impl IntegerJson {
    ghost use Rattle.json_core.specs.Defined.{width_json};

    /// Returns how integers of so many bytes stand in JSON: of more than eight as a text.
    pub(crate) fn of_width(bytes: usize) -> IntegerJson
        ensures { result ≡ width_json bytes }
    {
        if bytes > 8 {
            IntegerJson::Text
        } else {
            IntegerJson::Number
        }
    }
}
