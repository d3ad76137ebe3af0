// SPDX-License-Identifier: Apache-2.0
//! The propagators of vendors, B3 and Jaeger, and both by the names that the OpenTelemetry specification gives them in
//! OTEL_PROPAGATORS: `configured_propagators` takes `VendorPropagators` for its custom ones.
#![tactic(auto)]

pub mod b3;
pub mod jaeger;

ghost use Rattle.std.specs.Prelude.{◌≡◌};
ghost use Rattle.otel_propagators.specs.Vendors.{vendor_named};

pub use b3::{B3Deferred, B3Encoding, B3Propagator};
pub use jaeger::JaegerPropagator;
use opentelemetry::Context;
use opentelemetry::propagation::{Extractor, FieldIter, Injector, TextMapPropagator};
use otel_propagation::propagation::CustomPropagators;
use std::alloc::{AllocError, Global};

/// The propagator of a vendor's headers.
#[derive(Clone, Copy, Debug)]
pub enum VendorPropagator {
    /// With the single header or the many, as its encoding says.
    B3(B3Propagator),
    Jaeger(JaegerPropagator),
}

impl TextMapPropagator for VendorPropagator {
    ghost use Rattle.otel_propagators.specs.Vendors.{InjectsAsVendor, ExtractsAsVendor, VendorIsInfallible};
    ghost use Rattle.otel_propagators.specs.Vendors.{fields_of_vendor};

    ghost inject_gives = { InjectsAsVendor };

    ghost extract_gives = { ExtractsAsVendor };

    ghost extract_is_infallible = { VendorIsInfallible };

    ghost field_names = { fields_of_vendor };

    fn inject_context<I: Injector>(
        &self,
        alloc: Global,
        cx: &Context,
        injector: &mut I,
    ) -> Result<(), AllocError> {
        match self {
            VendorPropagator::B3(b3) => b3.inject_context(alloc, cx, injector),
            VendorPropagator::Jaeger(jaeger) => jaeger.inject_context(alloc, cx, injector),
        }
    }

    fn extract_with_context<X: Extractor>(
        &self,
        alloc: Global,
        cx: &Context,
        extractor: &X,
    ) -> Result<Context, AllocError> {
        match self {
            VendorPropagator::B3(b3) => b3.extract_with_context(alloc, cx, extractor),
            VendorPropagator::Jaeger(jaeger) => jaeger.extract_with_context(alloc, cx, extractor),
        }
    }

    fn fields(&self) -> FieldIter<'_> {
        match self {
            VendorPropagator::B3(b3) => b3.fields(),
            VendorPropagator::Jaeger(jaeger) => jaeger.fields(),
        }
    }
}

/// `b3` is B3 with the single header, `b3multi` B3 with the many, and `jaeger` Jaeger.
#[derive(Clone, Copy, Debug, Default)]
pub struct VendorPropagators;

impl CustomPropagators for VendorPropagators {
    ghost use Rattle.otel_propagators.specs.Vendors.{vendor_named};

    type Propagator = VendorPropagator;

    ghost custom_named = { λ _. vendor_named };

    fn named(&self, name: &str) -> Option<VendorPropagator> {
        match name {
            "b3" => Some(VendorPropagator::B3(B3Propagator::new())),
            "b3multi" => Some(VendorPropagator::B3(B3Propagator::with_encoding(
                B3Encoding::MultipleHeader,
            ))),
            "jaeger" => Some(VendorPropagator::Jaeger(JaegerPropagator::new())),
            _ => None,
        }
    }
}
