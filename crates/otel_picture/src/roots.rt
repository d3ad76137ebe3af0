//! Which spans of a trace are roots: those without a parent in the picture, and of each circle of parents the first.
//!
//! A walk goes up from each span in turn as far as none came before, so that all of them take as many steps as there
//! are spans.

ghost use Rattle.std.specs.Prelude.{◌≡◌, ◌<◌, ℕ, suc, true, Some, None, IfNone, IfOk, IfSome, is_none, length};
ghost use Rattle.std.specs.Prelude.{vec_len};
ghost use Rattle.otel_picture.specs.Orders.{IsHead};
ghost use Rattle.otel_picture.specs.Parents.{ancestor, parent_of};
ghost use Rattle.otel_picture.specs.Turns.{AreTops, LeadsTo, is_marked};
ghost use Rattle.otel_picture.specs.Walks.{AreBelow, AreOver, CameUp};

use crate::rows::Family;
use std::alloc::{AllocError, Global};

impl Family {
    /// The parent of a span that has one.
    fn above(&self, span: usize) -> usize
        requires { parent_of self.now.parents.items span ≡ None → ⊥ }
        ensures { parent_of self.now.parents.items span ≡ Some result }
    {
        match self.parent(span) {
            Some(parent) => parent,
            None => span,
        }
    }

    /// The first span of the circle that a span is of.
    fn circle_head(&self, span: usize) -> usize
        requires there { span < vec_len self.now.parents }
        requires circle { (steps : ℕ) × (ancestor self.now.parents.items (suc steps) span ≡ Some span) }
        ensures there { result < vec_len self.now.parents }
        ensures above { (steps : ℕ) × (ancestor self.now.parents.items steps span ≡ Some result) }
        ensures head { IsHead self.now.marks.items self.now.parents.items result }
    {
        let mut head = span;
        let mut above = span;
        for _steps in 0..self.parents.len() {
            above = self.above(above);
            if above == span {
                return head;
            }
            if self.is_before(above, head) {
                head = above;
            }
        }
        head
    }

    /// Walks up from a span to a root, or to a span to which a walk came before, and answers the latter if this walk
    /// did, which goes round a circle then. A span to which a walk came knows from which span the first one did.
    fn walk_up(&self, tops: &[bool], walks: &mut Vec<Option<usize>>, span: usize) -> Option<usize>
        requires there { span < vec_len self.now.parents }
        requires alike { length tops.now ≡ vec_len self.now.parents }
        requires walked { vec_len walks.old ≡ vec_len self.now.parents }
        requires parentless { (top : ℕ) → top < vec_len self.now.parents
            → parent_of self.now.parents.items top ≡ None → is_marked tops.now top ≡ true }
        requires below { AreBelow span walks.old.items }
        requires over { AreOver self.now.parents.items tops.now walks.old.items }
        ensures below { AreBelow (suc span) walks.new.items }
        ensures walked { vec_len walks.new ≡ vec_len walks.old }
        ensures none { IfNone result (AreOver self.now.parents.items tops.now walks.new.items
            × LeadsTo self.now.parents.items tops.now span) }
        ensures some { IfSome result (λ above.
            CameUp self.now.parents.items tops.now walks.new.items span above) }
    {
        let mut at = span;
        while !tops[at] && walks[at].is_none() {
            walks[at] = Some(span);
            at = self.above(at);
        }
        if !tops[at] && walks[at] == Some(span) {
            Some(at)
        } else {
            None
        }
    }

    /// Which spans have no parent in the picture.
    fn parentless(&self, alloc: Global) -> Result<Vec<bool>, AllocError>
        ensures count { IfOk result (λ tops. vec_len tops ≡ vec_len self.now.parents) }
        ensures is { IfOk result (λ tops. (span : ℕ) → span < vec_len self.now.parents
            → is_marked tops.items span ≡ is_none (parent_of self.now.parents.items span)) }
    {
        let mut tops = Vec::with_capacity(alloc, self.parents.len())?;
        for parent in &self.parents {
            tops.push(parent.is_none())?;
        }
        Ok(tops)
    }

    /// Which spans are roots: above each span there is one.
    pub(crate) fn tops(&self, alloc: Global) -> Result<Vec<bool>, AllocError>
        ensures { IfOk result (λ tops. AreTops self.now.marks.items self.now.parents.items tops.items) }
    {
        let mut tops = self.parentless(alloc)?;
        let mut walks = vec![in alloc; None; self.parents.len()]?;
        for span in 0..self.parents.len() {
            if let Some(above) = self.walk_up(&tops, &mut walks, span) {
                let head = self.circle_head(above);
                tops[head] = true;
            }
        }
        Ok(tops)
    }
}
