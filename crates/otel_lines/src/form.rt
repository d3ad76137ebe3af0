//! How batches are written: the bytes of each, one after the other.

ghost use Rattle.std.specs.Prelude.{◌≡◌, ◌++◌, [], IsOk, OnErr, OnOk, length, map, take};
ghost use Rattle.otel_lines.specs.Form.{Form, bytes_in};

use otel_export::trace::SpanData;
use otel_resource::resource::Resource;
use std::alloc::{AllocError, Global};

/// How a batch is written. It may hold room for texts.
pub trait BatchForm: Drop {
    /// The bytes of a batch, and what ends a line of them.
    ghost form: { Form };

    /// It takes memory when it writes.
    fn new(alloc: Global) -> Self;

    /// Appends the bytes of a batch of this resource, or nothing where memory runs out.
    fn append(
        &mut self,
        out: &mut Vec<u8>,
        resource: &Resource,
        batch: &[SpanData],
    ) -> Result<(), AllocError>
        ensures ok { OnOk result (out.new.items ≡ out.old.items ++ form.bytes resource.now batch.now) }
        ensures err { OnErr result (out.new.items ≡ out.old.items) };

    /// What ends a line, where batches are lines: after it the next batch can follow bytes that were cut off. Without
    /// it none can.
    fn line_end(&self) -> Option<u8>
        ensures { result ≡ form.line_end };
}

/// Appends the bytes of batches of one resource, in order, or nothing where memory runs out.
pub fn write_batches<F: BatchForm>(
    form: &mut F,
    out: &mut Vec<u8>,
    resource: &Resource,
    batches: &[Vec<SpanData>],
) -> Result<(), AllocError>
    ensures ok { OnOk result
        (out.new.items ≡ out.old.items ++ bytes_in F.form resource.now (map (λ batch. batch.items) batches.now)) }
    ensures err { OnErr result (out.new.items ≡ out.old.items) }
    ensures free { batches.now ≡ [] → IsOk result }
{
    let begun = out.len();
    let written = push_batches(form, out, resource, batches);
    if written.is_err() {
        out.truncate(begun);
    }
    written
}

/// The same, but on an error a beginning of the bytes stays.
fn push_batches<F: BatchForm>(
    form: &mut F,
    out: &mut Vec<u8>,
    resource: &Resource,
    batches: &[Vec<SpanData>],
) -> Result<(), AllocError>
    ensures ok { OnOk result
        (out.new.items ≡ out.old.items ++ bytes_in F.form resource.now (map (λ batch. batch.items) batches.now)) }
    ensures front { take (length out.old.items) out.new.items ≡ out.old.items }
    ensures free { batches.now ≡ [] → IsOk result }
{
    for batch in batches {
        form.append(out, resource, batch)?;
    }
    Ok(())
}
