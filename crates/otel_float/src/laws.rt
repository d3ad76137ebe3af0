//! The law of the text, over the definitions alone. The function does nothing; its contract is the law, for all floats.

ghost use Rattle.std.specs.Prelude.{◌≡◌, Some, IsTrue};
ghost use Rattle.std.specs.Float.{Float, binary64, float_is_finite};
ghost use Rattle.std.specs.Float.Ieee.{fits};
ghost use Rattle.fast_float.specs.Parse.{parse_float};
ghost use Rattle.otel_float.specs.FloatText.{float_text};
ghost use Rattle.ryu.specs.Plain.{IsPlainNumber};

/// The text reads back as the float, and is a JSON number where the float is finite.
pub fn texts_read_back()
    ensures { (x : Float) → IsTrue (fits binary64 x) → (parse_float binary64 (float_text x) ≡ Some x)
        × (IsTrue (float_is_finite x) → IsPlainNumber (float_text x)) }
{}
