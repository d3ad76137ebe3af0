//! The spans of a trace as their rows are put in: the roots, and the children of each span, the last one first.

ghost use Rattle.std.specs.Prelude.{◌≡◌, ◌<◌, ℕ, All, IfOk, [], get_or, length, false, vec_len};
ghost use Rattle.std.specs.List.{AllPairs, filter};
ghost use Rattle.otel_picture.specs.Orders.{comes_before};
ghost use Rattle.otel_picture.specs.Turns.{AreChildren, AreInTurn, AreSplit, AreRoots, is_child};

use crate::rows::Family;
use std::alloc::{AllocError, Global};
use std::cmp::Reverse;

/// The roots of a trace, and the children of each span, the last one first.
#[derive(Drop)]
pub(crate) struct Turns {
    pub(crate) roots: Vec<usize>,
    pub(crate) children: Vec<Vec<usize>>,
}

/// The spans that are marked, in the order of these.
fn marked(alloc: Global, marks: &[bool], spans: &[usize]) -> Result<Vec<usize>, AllocError>
    requires { All (λ span. span < length marks.now) spans.now }
    ensures { IfOk result (λ marked. marked.items ≡ filter (λ span. get_or marks.now span false) spans.now) }
{
    let mut marked = Vec::new(alloc);
    for span in spans {
        if marks[*span] {
            marked.push(*span)?;
        }
    }
    Ok(marked)
}

/// So many empty lists.
fn empty_lists(alloc: Global, count: usize) -> Result<Vec<Vec<usize>>, AllocError>
    ensures count { IfOk result (λ lists. vec_len lists ≡ count) }
    ensures empty { IfOk result (λ lists. All (λ list. list.items ≡ []) lists.items) }
{
    let mut lists = Vec::with_capacity(alloc, count)?;
    for _list in 0..count {
        lists.push(Vec::new(alloc))?;
    }
    Ok(lists)
}

impl Family {
    /// All spans, the last one first.
    fn last_first(&self, alloc: Global) -> Result<Vec<usize>, AllocError>
        ensures { IfOk result (λ spans.
            AreInTurn self.now.marks.items (λ span. span < vec_len self.now.parents) spans.items) }
    {
        let mut spans = Vec::with_capacity(alloc, self.parents.len())?;
        for span in 0..self.parents.len() {
            spans.push(span)?;
        }
        spans.sort_unstable_by_key(|span| (Reverse(self.start(*span)), Reverse(*span)));
        Ok(spans)
    }

    /// Of each span its children, in the order of these.
    fn children(&self, alloc: Global, spans: &[usize]) -> Result<Vec<Vec<usize>>, AllocError>
        ensures { IfOk result (λ children.
            AreSplit self.now.parents.items spans.now children.items) }
    {
        let mut children = empty_lists(alloc, self.parents.len())?;
        for span in spans {
            if let Some(parent) = self.parent(*span) {
                children[parent].push(*span)?;
            }
        }
        Ok(children)
    }

    /// The roots, and the children of each span.
    pub(crate) fn turns(&self, alloc: Global) -> Result<Turns, AllocError>
        ensures roots { IfOk result (λ turns.
            AreRoots self.now.marks.items self.now.parents.items turns.roots.items) }
        ensures children { IfOk result (λ turns.
            AreChildren self.now.marks.items self.now.parents.items turns.children.items) }
    {
        let spans = self.last_first(alloc)?;
        let tops = self.tops(alloc)?;
        let roots = marked(alloc, &tops, &spans)?;
        let children = self.children(alloc, &spans)?;
        Ok(Turns { roots, children })
    }
}
