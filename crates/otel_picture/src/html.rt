//! Traces as one HTML file that asks for nothing beside itself: a list of the traces, and the rows of one. Its data are
//! JSON, which its style and its two scripts show; the policy in its head lets nothing else in, by their hashes
//! (`tools/html_hashes` compares them).

ghost use Rattle.std.specs.Prelude.{◌≡◌, ◌<◌, ◌++◌, All, IfOk, OnOk, Some, flat_map, length, map};
ghost use Rattle.json.specs.Json.{document};
ghost use Rattle.json.specs.Lex.{tokens};
ghost use Rattle.json.specs.Print.{print};
ghost use Rattle.json.specs.Tree.{json_tokens};
ghost use Rattle.otel_picture.specs.Drawn.{plain_traces};
ghost use Rattle.otel_picture.specs.HtmlJson.{html_json};
ghost use Rattle.otel_picture.specs.HtmlRows.{html_tokens};
ghost use Rattle.otel_picture.specs.HtmlTexts.{html_begin, html_data, html_end, html_text, safe_byte, safe_bytes};
ghost use Rattle.otel_picture.specs.Traces.{AllHaveSpans, plain_trace};

use crate::html_data::push_json_traces;
use crate::html_list::LIST_SCRIPT;
use crate::html_style::STYLE;
use crate::html_trace::TRACE_SCRIPT;
use crate::trace::Trace;
use crate::traces::Traces;
use json::Writer;
use otel_shown::ShownSpan;
use std::alloc::{AllocError, Global};

pub(crate) const BEGIN: &str = r#"<!doctype html>
<html lang="en">
<head>
<meta charset="utf-8">
<meta http-equiv="Content-Security-Policy" content="default-src 'none'; base-uri 'none'; form-action 'none';
style-src 'sha256-DP1cieI82aKbuKQP+tUMZkR1wf5dQPTjZMASAn4MsKA=';
script-src 'sha256-GivymzAxRcduyuRsCuJD4eb97alee67ji/w+O4fCo+I='
'sha256-YOBpOTOnfiegMXZOF8jmAFLuLsxs9By6Y/Lj3QJ2Dxc='">
<meta name="referrer" content="no-referrer">
<meta name="viewport" content="width=device-width, initial-scale=1">
<title>Traces</title>
<style>"#;

pub(crate) const BODY: &str = r#"</style>
</head>
<body>
<header>
<button id="back" hidden>All traces</button>
<h1 id="title">Traces</h1>
<input id="search" type="search" placeholder="Search (/)" aria-label="Search" autocomplete="off" spellcheck="false">
<output id="found"></output>
</header>
<noscript>The traces stand in this file as JSON. Showing them takes its script.</noscript>
<main id="list" role="grid" aria-label="Traces">
<div id="heads" class="heads" role="row">
<div class="cell when" role="columnheader" data-by="when"><button>Start</button></div>
<div class="cell what" role="columnheader" data-by="what"><button>Trace</button></div>
<div class="cell long" role="columnheader" data-by="long"><button>Length</button></div>
<div class="cell spans" role="columnheader" data-by="spans"><button>Spans</button></div>
<div class="cell errors" role="columnheader" data-by="errors"><button>Errors</button></div>
<div class="cell services" role="columnheader" data-by="services"><button>Services</button></div>
</div>
<div id="all" class="lines" tabindex="0" role="rowgroup" aria-label="Traces"></div>
<footer>Keys: / search, arrows move, Enter opens</footer>
</main>
<main id="trace" hidden>
<div class="columns">
<div id="table" class="rows">
<div class="heads"><div class="cell name">Span</div><div class="cell long">Length</div>
<div id="axis" class="time"></div></div>
<div id="rows" class="lines" tabindex="0" role="treegrid" aria-label="Spans"></div>
<div id="drag" class="drag" hidden></div>
</div>
<aside id="details" aria-label="Span" hidden><button id="closed">Close</button><div id="said"></div></aside>
</div>
<footer><button id="whole" disabled>Whole trace</button> Keys: / search, n N next, arrows move, left right fold, Enter
details, z to the span, + - 0 zoom, shift left right along, Esc back. Draw over the times to zoom</footer>
</main>
<script type="application/json" id="traces">"#;

pub(crate) const SCRIPT: &str = "</script>\n<script>";

pub(crate) const NEXT_SCRIPT: &str = "</script>\n<script>";

pub(crate) const END: &str = "</script>\n</body>\n</html>\n";

/// Appends bytes of a JSON text, those that HTML could take for its own by their numbers.
fn push_safe(out: &mut Vec<u8>, bytes: &[u8]) -> Result<(), AllocError>
    ensures { OnOk result (out.new.items ≡ out.old.items ++ safe_bytes bytes.now) }
{
    for byte in bytes {
        push_safe_byte(out, *byte)?;
    }
    Ok(())
}

fn push_safe_byte(out: &mut Vec<u8>, byte: u8) -> Result<(), AllocError>
    ensures { OnOk result (out.new.items ≡ out.old.items ++ safe_byte byte) }
{
    match byte {
        b'<' => out.extend_from_slice(b"\\u003c"),
        b'>' => out.extend_from_slice(b"\\u003e"),
        b'&' => out.extend_from_slice(b"\\u0026"),
        _ => {
            out.push(byte)?;
            Ok(())
        }
    }
}

/// The bytes of an array of all traces.
fn json_of(alloc: Global, spans: &[ShownSpan], traces: &[Trace]) -> Result<Vec<u8>, AllocError>
    requires { AllHaveSpans spans.now traces.now }
    ensures written { IfOk result (λ text. text.items ≡ print (html_tokens spans.now (map plain_trace traces.now))) }
    ensures reads_back { IfOk result (λ text. tokens text.items ≡ html_tokens spans.now (map plain_trace traces.now)) }
{
    let mut out = Writer::new(Vec::new(alloc));
    out.begin_array()?;
    push_json_traces(alloc, &mut out, spans, traces)?;
    out.end_array()?;
    Ok(out.into_inner())
}

impl Traces<'_> {
    /// The HTML file of traces.
    pub fn to_html(&self, alloc: Global) -> Result<Vec<u8>, AllocError>
        ensures written { IfOk result (λ text. text.items ≡ html_text (plain_traces self.now)) }
        ensures reads_back { IfOk result (λ _.
            document (html_data (plain_traces self.now)) ≡ Some (html_json (plain_traces self.now))) }
    {
        let data = json_of(alloc, self.spans, &self.traces)?;
        let mut text = Vec::new(alloc);
        push_begin(&mut text)?;
        push_safe(&mut text, &data)?;
        push_end(&mut text)?;
        Ok(text)
    }
}

/// Appends a text.
fn push_fixed(out: &mut Vec<u8>, text: &str) -> Result<(), AllocError>
    ensures { OnOk result (out.new.items ≡ out.old.items ++ text.now) }
{
    out.extend_from_slice(text.as_bytes())
}

/// Appends what stands in front of the data.
fn push_begin(out: &mut Vec<u8>) -> Result<(), AllocError>
    ensures { OnOk result (out.new.items ≡ out.old.items ++ html_begin) }
{
    push_fixed(out, BEGIN)?;
    push_fixed(out, STYLE)?;
    push_fixed(out, BODY)
}

/// Appends what stands after them.
fn push_end(out: &mut Vec<u8>) -> Result<(), AllocError>
    ensures { OnOk result (out.new.items ≡ out.old.items ++ html_end) }
{
    push_fixed(out, SCRIPT)?;
    push_fixed(out, LIST_SCRIPT)?;
    push_fixed(out, NEXT_SCRIPT)?;
    push_fixed(out, TRACE_SCRIPT)?;
    push_fixed(out, END)
}
