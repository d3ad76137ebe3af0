//! An attribute as C has it.

ghost use Rattle.std.specs.Prelude.{IfOk};
ghost use Rattle.otel_embed.specs.HostValues.{AreAttributesOf, IsAttributeOf, SaysValue};

use crate::error::PipelineError;
use crate::values::{HostValue, attribute_of};
use opentelemetry::KeyValue;
use std::alloc::Global;

/// An attribute: a key, and a value of a kind. What the kind does not name is not read.
#[repr(C)]
#[derive(Clone, Copy)]
pub struct HostAttribute<'a> {
    pub key: &'a [u8],
    /// The number of its kind.
    pub kind: u32,
    /// 0 for false, and every other number for true.
    pub truth: u32,
    pub integer: i64,
    pub number: f64,
    /// A text; texts that stand one after another; or truth values, a byte each.
    pub bytes: &'a [u8],
    /// How many bytes each text has.
    pub lengths: &'a [u64],
    pub integers: &'a [i64],
    pub numbers: &'a [f64],
}

impl<'a> HostAttribute<'a> {
    /// The value that it says; `BadArgument` where its kind is none.
    fn value(&self) -> Result<HostValue<'a>, PipelineError>
        ensures { IfOk result (SaysValue self.now) }
    {
        match self.kind {
            1 => Ok(HostValue::Text(self.bytes)),
            2 => Ok(HostValue::Integer(self.integer)),
            3 => Ok(HostValue::Float(self.number)),
            4 => Ok(HostValue::Truth(self.truth != 0)),
            5 => Ok(HostValue::Texts {
                texts: self.bytes,
                lengths: self.lengths,
            }),
            6 => Ok(HostValue::Integers(self.integers)),
            7 => Ok(HostValue::Floats(self.numbers)),
            8 => Ok(HostValue::Truths(self.bytes)),
            _ => Err(PipelineError::BadArgument),
        }
    }

    /// The attribute that it means.
    fn to_key_value(&self, alloc: Global) -> Result<KeyValue, PipelineError>
        ensures { IfOk result (IsAttributeOf self.now) }
    {
        let value = self.value()?;
        attribute_of(alloc, self.key, value)
    }
}

/// The attributes that these mean, in their order.
pub(crate) fn attributes_of(
    alloc: Global,
    attributes: &[HostAttribute<'_>],
) -> Result<Vec<KeyValue>, PipelineError>
    ensures { IfOk result (λ made. AreAttributesOf attributes.now made.items) }
{
    let mut made = Vec::with_capacity(alloc, attributes.len())?;
    for attribute in attributes {
        made.push(attribute.to_key_value(alloc)?)?;
    }
    Ok(made)
}
