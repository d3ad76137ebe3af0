//! The rooms of the text form: how many columns a row has for the name of its span, for its bar and for numbers.

ghost use Rattle.std.specs.Prelude.{◌≡◌, ◌<◌, ◌≤◌};
ghost use Rattle.otel_picture.specs.Layouts.{layout_of, layout_with, svg_layout};

/// How many columns a picture has where nobody says.
pub const COLUMNS: u32 = 72;

/// The rooms of a row, in columns of a terminal. Between the name and the bar there is one more.
#[derive(Clone, Copy, Debug, PartialEq, Eq)]
pub struct Layout {
    /// The whole row.
    pub columns: usize,
    pub name: usize,
    pub bar: u32,
    /// Whether offset and length stand after the bar.
    pub has_numbers: bool,
    /// Whether the time of a span without its children stands there too.
    pub has_self_time: bool,
    /// Whether the attributes of a span and all of its events stand under its row.
    pub has_attributes: bool,
}

impl Layout {
    /// The rooms of the SVG form: names have 40 columns of text, bars 460 units.
    pub(crate) fn svg() -> Layout
        ensures { result ≡ svg_layout }
    {
        Layout {
            columns: 120,
            name: 40,
            bar: 460,
            has_numbers: true,
            has_self_time: false,
            has_attributes: false,
        }
    }

    /// The rooms of so many columns, of which 20 at least and 400 at most count.
    pub fn of(columns: u32) -> Layout
        ensures is { result ≡ layout_of columns }
        ensures wide { 9 < result.bar }
        ensures bounded { result.columns ≤ 400 }
    {
        let columns = columns.clamp(20, 400);
        let has_numbers = columns >= 48;
        let has_self_time = columns >= 96;
        let numbers = if has_numbers { 18 } else { 0 };
        let own = if has_self_time { 9 } else { 0 };
        let rest = columns - numbers - own;
        let name = rest * 2 / 5;
        Layout {
            columns: columns as usize,
            name: name as usize,
            bar: rest - name - 1,
            has_numbers,
            has_self_time,
            has_attributes: false,
        }
    }

    /// The same, with attributes under the rows or without.
    pub(crate) fn with_attributes(columns: u32, has_attributes: bool) -> Layout
        ensures is { result ≡ layout_with columns has_attributes }
        ensures wide { 9 < result.bar }
    {
        let layout = Layout::of(columns);
        Layout {
            has_attributes,
            ..layout
        }
    }
}
