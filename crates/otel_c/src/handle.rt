//! A pipeline on the heap, as a struct that C keeps.
ghost use Rattle.otel_c.specs.Kept.{keeps};
ghost use Rattle.std.specs.Prelude.{◌≡◌, true, false, is_some, IsSome, IfSome};
ghost use Rattle.std.specs.contracts.impls.GlobalAllocator.TheImpl.{ghosts};
ghost use Rattle.std.specs.declared.option.Option.{Option};
ghost use Rattle.std.specs.declared.option.Option.TheVariants.{None, Some};
ghost use Rattle.otel_c.specs.Handles.{pipeline_code};
ghost use Rattle.otel_embed.specs.contracts.pipeline.Pipeline.{the_row};
ghost use Rattle.otel_embed.specs.declared.pipeline.Pipeline.{Pipeline};

use crate::loose::Loose;
use otel_embed::Pipeline;
use std::alloc::Global;
use std::marker::Model;
use std::mem::replace;
use std::ptr::null_mut;

/// The pointer owns the pipeline where there is one, and is null where there is none.
#[repr(C)]
#[derive(Drop)]
pub struct Held {
    at: *mut u8,
    alloc: Global,
    ghost pipeline: { Option Pipeline } by { pipeline_code },
}

impl Model for Held {
    ghost also_owns = { λ h. keeps (ghosts.dealloc_token h.alloc) the_row h.at h.pipeline };
}

impl Held {
    fn empty(alloc: Global) -> Held
        ensures { result.pipeline ≡ None }
    {
        Held {
            at: null_mut(),
            alloc,
        }
    }

    fn of(pipeline: Loose<Pipeline, Global>) -> Held
        ensures { result.pipeline ≡ Some pipeline.value }
    {
        let Loose { at, alloc } = pipeline;
        Held {
            at: at as *mut u8,
            alloc,
        }
    }

    fn into_loose(self) -> Loose<Pipeline, Global>
        requires { IsSome self.pipeline }
        ensures { Some result.value ≡ self.pipeline }
    {
        let Held { at, alloc } = self;
        Loose {
            at: at as *mut Pipeline,
            alloc,
        }
    }
}

/// What C keeps. All zeros is a handle that is not open.
#[repr(C)]
pub struct Handle {
    pub is_open: bool,
    pub held: Held,
    ghost holds: { is_open ≡ is_some held.pipeline },
}

impl Handle {
    pub(crate) fn take(&mut self, alloc: Global) -> Option<Box<Pipeline, Global>>
        ensures closed { self.new.is_open ≡ false }
        ensures some { IfSome result (λ pipeline. (self.old.is_open ≡ true)
            × (self.old.held.pipeline ≡ Some pipeline.value)) }
        ensures none { result ≡ None → self.old.is_open ≡ false }
    {
        if self.is_open {
            self.is_open = false;
            let held = replace(&mut self.held, Held::empty(alloc));
            Some(held.into_loose().into_box())
        } else {
            None
        }
    }

    /// The handle is not open, so there is no pipeline that this would forget.
    pub(crate) fn put(&mut self, alloc: Global, pipeline: Box<Pipeline, Global>)
        requires { self.old.is_open ≡ false }
        ensures { (self.new.is_open ≡ true) × (self.new.held.pipeline ≡ Some pipeline.value) }
    {
        self.held = Held::of(Loose::of(pipeline));
        self.is_open = true;
    }
}
