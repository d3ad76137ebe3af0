//! The modes of the program, and how its arguments ask for one.

ghost use Rattle.std.specs.Prelude.{◌≡◌, map, option_and_then, option_copied, string_bytes};
ghost use Rattle.std.specs.Option.{option_map};
ghost use Rattle.otel_trace_run.specs.Arguments.{alone, asked_in, batch_in, columns_in, encoding_in, given_columns};
ghost use Rattle.otel_trace_run.specs.Arguments.{mode_in, otlp_in, picture_in, plain_mode, processor_in, sizes_in};
ghost use Rattle.otel_trace_run.specs.Arguments.{with_one};
ghost use Rattle.otel_trace_run.specs.Program.{says_reasons};
ghost use Rattle.otel_trace_run.specs.Requests.{GivenUnread};

use crate::given_attributes::unread_member;
use crate::picture::PictureForm;
use otel_otlp_protobuf::Encoding;
use otel_picture::layout::COLUMNS;
use otel_trace_lines::fields::parse_decimal;
use otel_trace_steps::Sizes;

/// What the program is asked to do.
#[derive(Clone, Copy)]
pub enum Mode<'w> {
    /// One session, whose replies are written.
    Trace(Asked),
    /// One batch queue of these sizes.
    Steps(Sizes),
    /// One session, whose batches are written, with the attributes string that describes the resource, if one is given.
    Otlp(AskedExport, &'w [String]),
    /// One session, whose spans are drawn at the end.
    Picture(Asked, PictureForm),
}

impl Mode<'_> {
    /// Whether it says why a line is bad: where its texts are fixed it does not.
    pub fn says_reasons(&self) -> bool
        ensures { result ≡ says_reasons (plain_mode self.now) }
    {
        match self {
            Mode::Trace(_) | Mode::Steps(_) => false,
            Mode::Otlp(_, _) | Mode::Picture(_, _) => true,
        }
    }

    /// The first attribute that it is given and that does not read; none where each reads.
    pub(crate) fn unread_attribute(&self) -> Option<&str>
        ensures { GivenUnread (plain_mode self.now) (option_copied result) }
    {
        match self {
            Mode::Otlp(_, given) => unread_member(*given),
            _ => None,
        }
    }
}

/// What a mode of one session is asked for.
#[derive(Clone, Copy, Debug, PartialEq, Eq)]
pub struct Asked {
    pub seed: u64,
    pub processor: AskedProcessor,
}

/// What a mode is asked for whose batches are written.
#[derive(Clone, Copy, Debug, PartialEq, Eq)]
pub struct AskedExport {
    pub encoding: Encoding,
    pub asked: Asked,
}

/// The processor that such a mode is asked for.
#[derive(Clone, Copy, Debug, PartialEq, Eq)]
pub enum AskedProcessor {
    /// It exports each span as it ends.
    Simple,
    /// So many spans may wait in its queue, and a batch has so many at most.
    Batch { queue: usize, batch: usize },
}

/// The mode of a word and those after it; none where they ask for none.
#[tactic(auto, unfolding(crate::specs::Arguments::mode_in))]
pub(crate) fn mode_of<'w>(word: &str, after: &'w [String]) -> Option<Mode<'w>>
    ensures { option_map plain_mode result ≡ mode_in word.now (map string_bytes after.now) }
{
    if word == "trace" {
        Some(Mode::Trace(asked_alone(after)?))
    } else if word == "steps" {
        Some(Mode::Steps(sizes_of(after)?))
    } else if word == "otlp" {
        otlp_of(after)
    } else if word == "picture" {
        picture_of(after)
    } else if word == "svg" {
        Some(Mode::Picture(asked_alone(after)?, PictureForm::Svg))
    } else {
        None
    }
}

/// A mode whose batches are written: maybe an encoding, `SEED`, a processor, and maybe an attributes string.
fn otlp_of(words: &[String]) -> Option<Mode<'_>>
    ensures { option_map plain_mode result ≡ otlp_in (map string_bytes words.now) }
{
    let (encoding, after) = encoding_of(words);
    let (asked, given) = asked_with_one(after)?;
    Some(Mode::Otlp(AskedExport { encoding, asked }, given))
}

/// A mode whose spans are drawn as text: `SEED`, a processor, and maybe how many columns there are.
fn picture_of(words: &[String]) -> Option<Mode<'_>>
    ensures { option_map plain_mode result ≡ picture_in (map string_bytes words.now) }
{
    let (asked, given) = asked_with_one(words)?;
    let columns = given_columns(given)?;
    Some(Mode::Picture(asked, PictureForm::Text { columns }))
}

/// The encoding that the first of these words names, JSON where it names none, and the words after it.
pub(crate) fn encoding_of(words: &[String]) -> (Encoding, &[String])
    ensures { (result.0, map string_bytes result.1.now) ≡ encoding_in (map string_bytes words.now) }
{
    match words.split_first() {
        Some((word, after)) if word.as_str() == "protobuf" => (Encoding::Protobuf, after),
        _ => (Encoding::Json, words),
    }
}

/// What `SEED` and a processor ask for, where no word stands after them.
fn asked_alone(words: &[String]) -> Option<Asked>
    ensures { result ≡ option_and_then alone (asked_in (map string_bytes words.now)) }
{
    let (asked, after) = asked_of(words)?;
    if after.is_empty() { Some(asked) } else { None }
}

/// The same, where one word at most stands after them, and that word.
fn asked_with_one(words: &[String]) -> Option<(Asked, &[String])>
    ensures { option_map (λ found. (found.0, map string_bytes found.1.now)) result
        ≡ option_and_then with_one (asked_in (map string_bytes words.now)) }
{
    let (asked, after) = asked_of(words)?;
    if after.len() < 2 {
        Some((asked, after))
    } else {
        None
    }
}

/// What `SEED` and a processor ask for, and the words after them.
fn asked_of(words: &[String]) -> Option<(Asked, &[String])>
    ensures { option_map (λ found. (found.0, map string_bytes found.1.now)) result
        ≡ asked_in (map string_bytes words.now) }
{
    let (seed, kind) = words.split_first()?;
    let seed = parse_decimal(seed.as_str())?;
    let (processor, after) = processor_of(kind)?;
    Some((Asked { seed, processor }, after))
}

/// The processor of `simple` or `batch Q B`, and the words after it.
fn processor_of(words: &[String]) -> Option<(AskedProcessor, &[String])>
    ensures { option_map (λ found. (found.0, map string_bytes found.1.now)) result
        ≡ processor_in (map string_bytes words.now) }
{
    let (kind, after) = words.split_first()?;
    if kind.as_str() == "simple" {
        Some((AskedProcessor::Simple, after))
    } else if kind.as_str() == "batch" {
        batch_of(after)
    } else {
        None
    }
}

/// The processor of the sizes `Q B`, and the words after them.
fn batch_of(words: &[String]) -> Option<(AskedProcessor, &[String])>
    ensures { option_map (λ found. (found.0, map string_bytes found.1.now)) result
        ≡ batch_in (map string_bytes words.now) }
{
    let (queue, rest) = words.split_first()?;
    let (batch, after) = rest.split_first()?;
    let queue = parse_decimal(queue.as_str())? as usize;
    let batch = parse_decimal(batch.as_str())? as usize;
    Some((AskedProcessor::Batch { queue, batch }, after))
}

/// The sizes of `Q B P`.
fn sizes_of(words: &[String]) -> Option<Sizes>
    ensures { result ≡ sizes_in (map string_bytes words.now) }
{
    match words {
        [queue, batch, producers] => Some(Sizes {
            queue: parse_decimal(queue.as_str())? as usize,
            batch: parse_decimal(batch.as_str())? as usize,
            producers: parse_decimal(producers.as_str())? as usize,
        }),
        _ => None,
    }
}

/// The columns that the first word gives, or 72 where there is none; none where it gives none.
fn given_columns(given: &[String]) -> Option<u32>
    ensures { result ≡ given_columns (map string_bytes given.now) }
{
    match given {
        [] => Some(COLUMNS),
        [columns, ..] => columns_of(columns.as_str()),
    }
}

/// The columns that a word writes, from 20 to 400.
pub(crate) fn columns_of(digits: &str) -> Option<u32>
    ensures { result ≡ columns_in digits.now }
{
    let number = parse_decimal(digits)?;
    if number < 20 || number > 400 {
        return None;
    }
    Some(number as u32)
}
