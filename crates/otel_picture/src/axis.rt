//! The axis over bars: ticks at round durations after the first moment of a trace, and the last moment at its end. The
//! text form and the SVG form choose them by one rule, each by the room that its labels take.

ghost use Rattle.std.specs.Prelude.{◌≡◌, ◌<◌, ◌≤◌, ◌+◌, ◌-◌, ◌*◌, ◌/◌, IfOk, OnOk, length, string_bytes};
ghost use Rattle.opentelemetry.specs.Text.{TextGrows};
ghost use Rattle.otel_picture.specs.Axes.{
  axis_of,
  axis_svg,
  axis_text,
  end_svg,
  end_text,
  ended_svg,
  ended_text,
  last_tick_text,
  most_steps,
  place_of,
  round_count,
  round_duration,
  round_hours,
  round_sixtieths,
  tick_svg,
  tick_text,
  ticks_svg,
  ticks_text,
};

use crate::bar::Scale;
use crate::durations::{DAY, HOUR, MINUTE, SECOND, YEAR, push_duration};
use crate::svg_parts::{down, push_end_label, push_label, push_line};
use crate::texts::push_in_room;
use std::alloc::{AllocError, Global};

/// How many columns the label of a tick has in the text form, and how many units in the SVG form.
const LABEL_COLUMNS: u32 = 9;

const LABEL_UNITS: u32 = 66;

/// The first of 1, 2, 5, 10, 20 and so on that is greater than a number, 1,000 at most.
fn round_count(n: u64) -> u64
    ensures is { result ≡ round_count n }
    ensures some { 0 < result }
    ensures most { result ≤ 1000 }
{
    match n {
        0 => 1,
        1 => 2,
        2..=4 => 5,
        5..=9 => 10,
        10..=19 => 20,
        20..=49 => 50,
        50..=99 => 100,
        100..=199 => 200,
        200..=499 => 500,
        _ => 1000,
    }
}

/// The same of seconds and minutes.
fn round_sixtieths(n: u64) -> u64
    ensures is { result ≡ round_sixtieths n }
    ensures some { 0 < result }
    ensures most { result ≤ 60 }
{
    match n {
        0..=19 => round_count(n),
        20..=29 => 30,
        _ => 60,
    }
}

/// The same of hours.
fn round_hours(n: u64) -> u64
    ensures is { result ≡ round_hours n }
    ensures some { 0 < result }
    ensures most { result ≤ 24 }
{
    match n {
        0..=1 => round_count(n),
        2..=5 => 6,
        6..=11 => 12,
        _ => 24,
    }
}

/// The first round duration that is longer than one, 500 years at most.
fn round_duration(n: u64) -> u64
    ensures is { result ≡ round_duration n }
    ensures some { 0 < result }
{
    match n {
        0..=999 => round_count(n),
        1_000..=999_999 => 1_000 * round_count(n / 1_000),
        1_000_000..=999_999_999 => 1_000_000 * round_count(n / 1_000_000),
        1_000_000_000..=59_999_999_999 => SECOND * round_sixtieths(n / SECOND),
        60_000_000_000..=3_599_999_999_999 => MINUTE * round_sixtieths(n / MINUTE),
        3_600_000_000_000..=86_399_999_999_999 => HOUR * round_hours(n / HOUR),
        86_400_000_000_000..=31_535_999_999_999_999 => DAY * round_count(n / DAY),
        _ => YEAR * round_count(n / YEAR).min(500),
    }
}

/// How many steps an axis of so many columns has at most, whose ticks have labels of so many.
fn most_steps(columns: u32, label: u32) -> u32
    requires { label < 1000 }
    ensures is { result ≡ most_steps columns label }
    ensures some { 0 < result }
{
    (columns / (label + 1)).min(8).max(1)
}

/// How many of so many columns stand before the label of the end.
fn room_before(columns: u32, end: usize) -> u32
    ensures { result ≡ columns - end }
{
    (columns as usize).saturating_sub(end) as u32
}

/// The moment at a column.
fn moment_at(duration: u64, columns: u32, column: u32) -> u64
    requires wide { 0 < columns }
    requires within { column ≤ columns }
    ensures is { result ≡ duration * column / columns }
    ensures within { result ≤ duration }
{
    let moment = u128::from(duration) * u128::from(column) / u128::from(columns);
    moment as u64
}

/// An axis: how long it is, in nanoseconds and in columns, how far its ticks are apart, and the number of the last one.
#[derive(Clone, Copy, Debug, PartialEq, Eq)]
pub(crate) struct Axis {
    pub(crate) duration: u64,
    pub(crate) columns: u32,
    pub(crate) step: u64,
    pub(crate) last: u64,
}

impl Axis {
    /// An axis whose ticks have labels of so many columns, and its end one of so many.
    fn of(duration: u64, columns: u32, label: u32, end: usize) -> Axis
        requires wide { 0 < columns }
        requires short { label < 1000 }
        ensures is { result ≡ axis_of duration columns label end }
        ensures within { result.last * result.step ≤ duration }
    {
        let step = round_duration(duration / u64::from(most_steps(columns, label)));
        let room = room_before(columns.saturating_sub(label), end);
        let last = moment_at(duration, columns, room) / step;
        Axis {
            duration,
            columns,
            step,
            last,
        }
    }

    /// How long after the begin a tick stands.
    fn moment_of(self, tick: u64) -> u64
        requires here { tick ≤ self.last }
        requires within { self.last * self.step ≤ self.duration }
        ensures is { result ≡ tick * self.step }
        ensures within { result ≤ self.duration }
    {
        tick * self.step
    }

    /// In which column it stands.
    fn place_of(self, tick: u64) -> u32
        requires wide { 0 < self.columns }
        requires here { tick ≤ self.last }
        requires within { self.last * self.step ≤ self.duration }
        ensures is { result ≡ place_of self tick }
        ensures inside { result < self.columns }
    {
        let scale = Scale {
            first: 0,
            last: self.duration,
            columns: self.columns,
        };
        scale.column(self.moment_of(tick))
    }

    /// A tick but the last one, in the cell up to the next one.
    fn push_tick(self, alloc: Global, text: &mut String, tick: u64) -> Result<(), AllocError>
        requires wide { 0 < self.columns }
        requires here { tick < self.last }
        requires within { self.last * self.step ≤ self.duration }
        ensures { OnOk result (TextGrows text.old
            (tick_text (place_of self (tick + 1) - place_of self tick) (tick * self.step)) text.new) }
    {
        let cell = self.place_of(tick + 1).saturating_sub(self.place_of(tick));
        push_tick(alloc, text, cell, self.moment_of(tick))
    }

    /// Ticks but the last one.
    fn push_ticks(self, alloc: Global, text: &mut String) -> Result<(), AllocError>
        requires wide { 0 < self.columns }
        requires within { self.last * self.step ≤ self.duration }
        ensures { OnOk result (TextGrows text.old (ticks_text self self.last) text.new) }
    {
        for tick in 0..self.last {
            self.push_tick(alloc, text, tick)?;
        }
        Ok(())
    }

    /// The last tick in its cell, up to the label of the end, which takes so many columns.
    fn push_last_tick(self, alloc: Global, text: &mut String, end: usize) -> Result<(), AllocError>
        requires wide { 0 < self.columns }
        requires within { self.last * self.step ≤ self.duration }
        ensures { OnOk result (TextGrows text.old (last_tick_text self end) text.new) }
    {
        let room = room_before(self.columns, end);
        let cell = room.saturating_sub(self.place_of(self.last));
        push_tick(alloc, text, cell, self.moment_of(self.last))
    }

    /// The axis in the text form, and what its end says.
    #[tactic(auto, unfolding(crate::specs::Axes::ended_text))]
    fn push_ended(self, alloc: Global, text: &mut String, end: &str) -> Result<(), AllocError>
        requires wide { 0 < self.columns }
        requires within { self.last * self.step ≤ self.duration }
        ensures { OnOk result (TextGrows text.old (ended_text self end.now) text.new) }
    {
        self.push_ticks(alloc, text)?;
        self.push_last_tick(alloc, text, end.len())?;
        text.push_str(end)?;
        Ok(())
    }

    /// A tick of the SVG form: a line over all rows, and the moment where it stands.
    fn push_svg_tick(
        self,
        alloc: Global,
        out: &mut String,
        line: u64,
        end: u64,
        tick: u64,
    ) -> Result<(), AllocError>
        requires wide { 0 < self.columns }
        requires here { tick ≤ self.last }
        requires within { self.last * self.step ≤ self.duration }
        ensures { OnOk result (TextGrows out.old (tick_svg self line end tick) out.new) }
    {
        let place = u64::from(self.place_of(tick));
        push_line(out, 310 + place, down(line, 6), down(end, 0))?;
        let mut moment = String::new(alloc);
        push_duration(&mut moment, self.moment_of(tick))?;
        push_label(out, 313 + place, down(line, 15), moment.as_str())
    }

    /// Such ticks but the last one.
    fn push_svg_ticks(
        self,
        alloc: Global,
        out: &mut String,
        line: u64,
        end: u64,
    ) -> Result<(), AllocError>
        requires wide { 0 < self.columns }
        requires within { self.last * self.step ≤ self.duration }
        ensures { OnOk result (TextGrows out.old (ticks_svg self line end self.last) out.new) }
    {
        for tick in 0..self.last {
            self.push_svg_tick(alloc, out, line, end, tick)?;
        }
        Ok(())
    }

    /// The axis in the SVG form, on a line, down to the line that ends the rows.
    #[tactic(auto, unfolding(crate::specs::Axes::ended_svg))]
    fn push_ended_svg(
        self,
        alloc: Global,
        out: &mut String,
        line: u64,
        end: u64,
    ) -> Result<(), AllocError>
        requires wide { 0 < self.columns }
        requires within { self.last * self.step ≤ self.duration }
        ensures { OnOk result (TextGrows out.old (ended_svg self line end) out.new) }
    {
        self.push_svg_ticks(alloc, out, line, end)?;
        self.push_svg_tick(alloc, out, line, end, self.last)?;
        push_svg_end(alloc, out, self.duration, line, end)?;
        out.push_str("\n")?;
        Ok(())
    }
}

/// What the end of the axis of the SVG form says.
fn push_svg_end(
    alloc: Global,
    out: &mut String,
    duration: u64,
    line: u64,
    end: u64,
) -> Result<(), AllocError>
    ensures { OnOk result (TextGrows out.old (end_svg duration line end) out.new) }
{
    push_line(out, 770, down(line, 6), down(end, 0))?;
    let mut moment = String::new(alloc);
    push_duration(&mut moment, duration)?;
    push_end_label(out, 767, down(line, 15), moment.as_str())
}

/// A tick in its cell, and the moment where it stands, if there is room.
fn push_tick(alloc: Global, text: &mut String, cell: u32, moment: u64) -> Result<(), AllocError>
    ensures { OnOk result (TextGrows text.old (tick_text cell moment) text.new) }
{
    if cell < LABEL_COLUMNS {
        return push_in_room(text, "|", cell as usize);
    }
    let mut tick = String::from_str(alloc, "|")?;
    push_duration(&mut tick, moment)?;
    push_in_room(text, tick.as_str(), cell as usize)
}

/// What the end of an axis says.
fn end_of(alloc: Global, duration: u64) -> Result<String, AllocError>
    ensures { IfOk result (λ end. string_bytes end ≡ end_text duration) }
{
    let mut end = String::new(alloc);
    push_duration(&mut end, duration)?;
    end.push('|')?;
    Ok(end)
}

/// The axis of the text form.
#[tactic(auto, unfolding(crate::specs::Axes::axis_text))]
pub(crate) fn push_axis(
    alloc: Global,
    text: &mut String,
    duration: u64,
    columns: u32,
) -> Result<(), AllocError>
    requires { 0 < columns }
    ensures { OnOk result (TextGrows text.old (axis_text duration columns) text.new) }
{
    let end = end_of(alloc, duration)?;
    let axis = Axis::of(duration, columns, LABEL_COLUMNS, end.len());
    axis.push_ended(alloc, text, end.as_str())
}

/// The axis of the SVG form, on a line, down to the line that ends the rows.
#[tactic(auto, unfolding(crate::specs::Axes::axis_svg))]
pub(crate) fn push_svg_axis(
    alloc: Global,
    out: &mut String,
    duration: u64,
    line: u64,
    end: u64,
) -> Result<(), AllocError>
    ensures { OnOk result (TextGrows out.old (axis_svg duration line end) out.new) }
{
    let axis = Axis::of(duration, 460, LABEL_UNITS, LABEL_UNITS as usize);
    axis.push_ended_svg(alloc, out, line, end)
}
