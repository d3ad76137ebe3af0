//! Texts that are written one after another, with a separator between two.

ghost use Rattle.std.specs.Prelude.{OnOk};
ghost use Rattle.opentelemetry.specs.Text.{TextGrows};
ghost use Rattle.otel_propagation.specs.BaggagePieces.{unless_first};

use std::alloc::AllocError;

/// Writes what parts a text from those before it. The first has none there.
pub fn push_unless_first(
    text: &mut String,
    is_first: bool,
    separator: &str,
) -> Result<(), AllocError>
    ensures { OnOk result (TextGrows text.old (unless_first is_first separator.now) text.new) }
{
    if is_first {
        return Ok(());
    }
    text.push_str(separator)
}
