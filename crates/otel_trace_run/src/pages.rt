//! What the program says of itself: the help of all modes, that of one, and its version; and what it says of arguments
//! that ask for nothing.

ghost use Rattle.std.specs.Prelude.{◌≡◌, map, string_bytes};
ghost use Rattle.otel_trace_run.specs.Pages.{help_in, is_help, is_version, page_of_mode, page_text, usage_in, usage_of};
ghost use Rattle.otel_trace_run.specs.Pages.{version_in};

/// What may be asked of the program about itself.
#[derive(Clone, Copy, Debug, PartialEq, Eq)]
pub enum Page {
    /// The help of all modes.
    All,
    Trace,
    Steps,
    Otlp,
    Picture,
    Svg,
    View,
    Version,
}

pub const VERSION: &str = "otel_trace 0.1.0\n";

pub const HELP: &str =
    "otel_trace carries out the commands that stand on the lines of standard input\n\
    \n\
    otel_trace trace SEED simple\n\
    otel_trace trace SEED batch Q B\n\
    \x20   writes a reply for each, example: otel_trace trace 0 simple < request.txt\n\
    otel_trace steps Q B P\n\
    \x20   steps a batch queue, example: otel_trace steps 2 2 1 < steps.txt\n\
    otel_trace otlp [protobuf] SEED simple [ATTRIBUTES]\n\
    otel_trace otlp [protobuf] SEED batch Q B [ATTRIBUTES]\n\
    \x20   writes a line of OTLP JSON for each batch, example: otel_trace otlp 0 simple service.name=shop < request.txt\n\
    otel_trace picture SEED simple [COLUMNS]\n\
    otel_trace picture SEED batch Q B [COLUMNS]\n\
    \x20   draws the traces as text, example: otel_trace picture 1 simple 72 < checkout.txt\n\
    otel_trace svg SEED simple\n\
    otel_trace svg SEED batch Q B\n\
    \x20   draws them as SVG, example: otel_trace svg 1 simple < checkout.txt > checkout.svg\n\
    otel_trace view [COLUMNS | svg | json | html] [--errors] [--slowest N] [--trace ID] [--attributes]\n\
    \x20   draws traces out of OTLP JSON of any producer, example: otel_trace view < spans.jsonl\n\
    otel_trace help [MODE]\n\
    otel_trace version\n";

pub const TRACE_HELP: &str = "otel_trace trace SEED simple\n\
    otel_trace trace SEED batch Q B\n\
    \n\
    Writes a reply for each command, after the spans that were exported. SEED decides all ids. A batch processor has a\n\
    queue of Q spans and batches of B.\n\
    \n\
    example: otel_trace trace 0 simple < request.txt\n";

pub const STEPS_HELP: &str = "otel_trace steps Q B P\n\
    \n\
    Steps a queue of Q spans with batches of B and P producers, a step a line, and writes what each comes to.\n\
    \n\
    example: otel_trace steps 2 2 1 < steps.txt\n";

pub const OTLP_HELP: &str = "otel_trace otlp [protobuf] SEED simple [ATTRIBUTES]\n\
    otel_trace otlp [protobuf] SEED batch Q B [ATTRIBUTES]\n\
    \n\
    Writes a line of OTLP JSON for each batch that is exported, or after the word protobuf the bytes of its request,\n\
    after how many they are. ATTRIBUTES, as key=value,key=value, describe the resource.\n\
    \n\
    example: otel_trace otlp 0 simple service.name=shop < request.txt\n";

pub const PICTURE_HELP: &str = "otel_trace picture SEED simple [COLUMNS]\n\
    otel_trace picture SEED batch Q B [COLUMNS]\n\
    \n\
    Draws the traces that were exported as text, at the end of the input. COLUMNS are 20 to 400, and 72 where none are\n\
    given.\n\
    \n\
    example: otel_trace picture 1 simple 72 < checkout.txt\n";

pub const SVG_HELP: &str = "otel_trace svg SEED simple\n\
    otel_trace svg SEED batch Q B\n\
    \n\
    Draws the traces that were exported as one SVG file, at the end of the input.\n\
    \n\
    example: otel_trace svg 1 simple < checkout.txt > checkout.svg\n";

pub const VIEW_HELP: &str =
    "otel_trace view [COLUMNS | svg | json | html] [--errors] [--slowest N] [--trace ID] [--attributes]\n\
    \n\
    Draws traces at the end of the input, which is OTLP JSON of any producer: a request a line, or one over many lines.\n\
    A line that does not read is named, and the others are drawn. COLUMNS are 20 to 400, and 72 where none are given;\n\
    svg writes one SVG file in their place, html a page for a browser, and json a line a trace. After --errors only\n\
    traces with a failed span are drawn, after --slowest the N longest, the longest first, and after --trace that of an\n\
    ID of 32 digits 0-9 a-f.\n\
    After --attributes text has the attributes of spans, and all events, under the rows.\n\
    \n\
    example: otel_trace view 120 --slowest 10 < spans.jsonl\n";

/// What is said of arguments that ask for nothing. It names the first two modes alone, for whoever compares it.
const USAGE: &str = "usage: otel_trace trace SEED simple | trace SEED batch Q B | steps Q B P\n";

pub const OTLP_USAGE: &str =
    "usage: otel_trace otlp [protobuf] SEED simple [ATTRIBUTES] | otlp [protobuf] SEED batch Q B [ATTRIBUTES]\n";

pub const PICTURE_USAGE: &str =
    "usage: otel_trace picture SEED simple [COLUMNS] | picture SEED batch Q B [COLUMNS]\n";

pub const SVG_USAGE: &str = "usage: otel_trace svg SEED simple | svg SEED batch Q B\n";

pub const VIEW_USAGE: &str =
    "usage: otel_trace view [COLUMNS | svg | json | html] [--errors] [--slowest N] [--trace ID] [--attributes]\n";

/// The text of a page.
pub(crate) fn text_of(page: Page) -> &'static str
    ensures { result.now ≡ page_text page }
{
    match page {
        Page::All => HELP,
        Page::Trace => TRACE_HELP,
        Page::Steps => STEPS_HELP,
        Page::Otlp => OTLP_HELP,
        Page::Picture => PICTURE_HELP,
        Page::Svg => SVG_HELP,
        Page::View => VIEW_HELP,
        Page::Version => VERSION,
    }
}

/// Whether a word asks for help.
pub(crate) fn is_help(word: &str) -> bool
    ensures { result ≡ is_help word.now }
{
    word == "help" || word == "--help" || word == "-h"
}

/// Whether a word asks for the version.
pub(crate) fn is_version(word: &str) -> bool
    ensures { result ≡ is_version word.now }
{
    word == "version" || word == "--version"
}

/// The page that the words after one for help ask for; none where they ask for none.
pub(crate) fn help_of(words: &[String]) -> Option<Page>
    ensures { result ≡ help_in (map string_bytes words.now) }
{
    match words {
        [] => Some(Page::All),
        [mode] => page_of_mode(mode.as_str()),
        _ => None,
    }
}

/// The version, where no word stands after the one that asks for it.
pub(crate) fn version_of(words: &[String]) -> Option<Page>
    ensures { result ≡ version_in (map string_bytes words.now) }
{
    match words {
        [] => Some(Page::Version),
        _ => None,
    }
}

/// The page of a mode, by its word; none where that is another word.
#[tactic(auto, unfolding(crate::specs::Pages::page_of_mode))]
pub(crate) fn page_of_mode(word: &str) -> Option<Page>
    ensures { result ≡ page_of_mode word.now }
{
    match word {
        "trace" => Some(Page::Trace),
        "steps" => Some(Page::Steps),
        "otlp" => Some(Page::Otlp),
        "picture" => Some(Page::Picture),
        "svg" => Some(Page::Svg),
        "view" => Some(Page::View),
        _ => None,
    }
}

/// The usage of the mode that the first of these words names, where that is one of the program's own, or else that of
/// the first two modes.
pub(crate) fn usage_for(words: &[String]) -> &'static str
    ensures { result.now ≡ usage_in (map string_bytes words.now) }
{
    match words {
        [word, ..] => usage_of(word.as_str()),
        [] => USAGE,
    }
}

/// The usage of the mode of a word.
#[tactic(auto, unfolding(crate::specs::Pages::usage_of))]
fn usage_of(word: &str) -> &'static str
    ensures { result.now ≡ usage_of word.now }
{
    match word {
        "otlp" => OTLP_USAGE,
        "picture" => PICTURE_USAGE,
        "svg" => SVG_USAGE,
        "view" => VIEW_USAGE,
        _ => USAGE,
    }
}
