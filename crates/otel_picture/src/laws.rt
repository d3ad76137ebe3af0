//! Laws of pictures. Each function does nothing; its contract is the law, for all values.

ghost use Rattle.std.specs.Prelude.{ℕ, ◌≡◌, ◌≢◌, ◌<◌, ◌≤◌, ◌+◌, All, List, Option, Some, [], length, max};
ghost use Rattle.otel_picture.specs.Bars.{column, first_of, last_of};
ghost use Rattle.otel_picture.specs.Drawn.{PlainTraces};
ghost use Rattle.otel_picture.specs.Durations.{shown_duration, step_of};
ghost use Rattle.otel_picture.specs.HtmlTexts.{html_data};
ghost use Rattle.otel_picture.specs.Orders.{IsHead, mark_at};
ghost use Rattle.otel_picture.specs.Parents.{HasAncestors, ancestor};
ghost use Rattle.otel_picture.specs.Rows.{StandUnder};
ghost use Rattle.otel_picture.specs.Texts.{IsPiece, escaped_char};
ghost use Rattle.otel_picture.specs.declared.rows.Mark.{Mark};
ghost use Rattle.otel_picture.specs.declared.rows.Row.{Row};

/// Columns follow time: an earlier moment stands in no later column, so of two spans the earlier start begins no
/// later, and a span within another has its bar within the other's.
pub fn columns_follow_time()
    ensures starts { (first last columns earlier later : ℕ) → first ≤ last → earlier ≤ later
        → column first last columns earlier ≤ column first last columns later }
    ensures within { (first last columns outer_start outer_end start end : ℕ) → first ≤ last
        → outer_start ≤ start → max start end ≤ max outer_start outer_end
        → (column first last columns outer_start ≤ column first last columns start)
        × (column first last columns (max start end) ≤ column first last columns (max outer_start outer_end)) }
{}

/// Where each row is a root or after its parent's and one level under it, a row's level is the number of its span's
/// ancestors in the picture; a span of a circle, or under one, has no such number.
pub fn levels_count_ancestors()
    ensures { (marks : List Mark) (parents : List (Option ℕ)) (rows : List Row) → StandUnder marks parents [] rows
        → All (λ row. (count : ℕ) → HasAncestors parents count row.span → row.level ≡ count) rows }
{}

/// A circle of parents has one first span, so that no other span of it is a root: each other stands under its parent.
pub fn circles_have_one_head()
    ensures { (marks : List Mark) (parents : List (Option ℕ)) (steps head other : ℕ) → IsHead marks parents head
        → ancestor parents steps head ≡ Some other → IsHead marks parents other → other ≡ head }
{}

/// What the SVG form writes for a character is an entity, or bytes that begin nothing in XML.
pub fn escapes_are_pieces()
    ensures { (c : ℕ) → IsPiece (escaped_char c) }
{}

/// No byte of the data of the HTML form is a `<`, with which each mark of HTML begins: so no text of a span ends their
/// element.
pub fn html_data_begin_no_mark()
    ensures { (drawn : PlainTraces) → All (λ byte. byte ≢ 60) (html_data drawn) }
{}

/// What is shown of a duration is not greater than it and less than one unit of its last digit away, and of two
/// durations the longer one is not shown as shorter.
pub fn durations_are_cut()
    ensures close { (n : ℕ) → (shown_duration n ≤ n) × (n < shown_duration n + step_of n) }
    ensures follow { (shorter longer : ℕ)
        → shorter ≤ longer → shown_duration shorter ≤ shown_duration longer }
{}

/// A scale goes from the least start of its spans to their greatest moment, the later of a start and an end. A start of
/// zero says that there is none; where no span has one, the scale is of one moment.
pub fn scales_fit()
    ensures holds { (marks : List Mark) (place : ℕ) → place < length marks → 0 < (mark_at marks place).start
        → first_of marks ≤ (mark_at marks place).start }
    ensures follows { (marks : List Mark) (place : ℕ) → place < length marks
        → max (mark_at marks place).start (mark_at marks place).end ≤ last_of marks }
    ensures begins { (marks : List Mark) (place : ℕ) → place < length marks → 0 < (mark_at marks place).start
        → (other : ℕ) × (other < length marks) × ((mark_at marks other).start ≡ first_of marks) }
    ensures ends { (marks : List Mark) → 0 < length marks → (place : ℕ) × (place < length marks)
        × (max (mark_at marks place).start (mark_at marks place).end ≡ last_of marks) }
    ensures alone { (marks : List Mark) → ((place : ℕ) → place < length marks → (mark_at marks place).start ≡ 0)
        → first_of marks ≡ last_of marks }
{}
