//! What is seen of a heap: its parts, what is told of each, and the order of use.
ghost use Rattle.std.specs.Prelude.{◌<◌, ◌^◌, IfSome};

use std::alloc::{AllocError, Global};
use w16_kernel::{Kernel, Source as Told};
use w16_model::Item;
use w16_picture::{Part, Source};
use w16_store::Store;

/// How many handles of the order of use are told at most.
const MOST_USES: usize = 12;

/// A look at a heap.
#[derive(Drop)]
pub struct View {
    pub items: Vec<Part>,
    /// The order of use, the least recently used first, as text.
    pub order: String,
}

/// Whose an object is, as a picture has it.
fn source_of(told: Option<Told>, code: bool) -> Source {
    match told {
        None => Source::Script,
        Some(Told::Segment { handle, number }) => Source::Segment {
            handle,
            number,
            code,
        },
        Some(Told::Resource { handle, place }) => Source::Resource { handle, place },
    }
}

/// Whether the object of a handle is code, which its first selector tells.
fn is_code<S: Store + Drop>(kernel: &Kernel<S>, handle: u16) -> bool {
    kernel.descriptor(handle | 1).is_some_and(|told| told.code)
}

/// A part of a walk, with what is told of its object.
fn part_of<S: Store + Drop>(kernel: &Kernel<S>, item: &Item) -> Part
    requires { IfSome item.now.owner (λ owner. owner.name < 2 ^ 16) }
{
    let mut part = Part {
        at: item.at,
        size: item.size,
        owner: item.owner,
        flags: 0,
        source: Source::Script,
        local: None,
    };
    if let Some(owner) = item.owner {
        let handle = owner.name as u16;
        if let Some(told) = kernel.facts(handle) {
            part.flags = told.flags;
            part.source = source_of(told.source, is_code(kernel, handle));
            part.local = told.local;
        }
    }
    part
}

/// Appends the parts of the heap.
fn push_walk<S: Store + Drop>(items: &mut Vec<Part>, kernel: &Kernel<S>) -> Result<(), AllocError> {
    let mut from = 0;
    'items: while let Some(item) = kernel.walk_from(from) {
        items.push(part_of(kernel, &item))?;
        from = item.at + item.size;
    }
    Ok(())
}

/// Appends the order of use: at most 12 handles, and dots where there are more.
fn push_order<S: Store + Drop>(text: &mut String, kernel: &Kernel<S>) -> Result<(), AllocError> {
    text.push_str("order of use:")?;
    for i in 0..MOST_USES {
        let Some(handle) = kernel.in_order(i) else {
            return Ok(());
        };
        write!(text, " {handle:04x}")?;
    }
    if kernel.in_order(MOST_USES).is_some() {
        text.push_str(" ..")?;
    }
    Ok(())
}

impl View {
    /// Nothing is seen yet.
    pub fn new(alloc: Global) -> View {
        View {
            items: Vec::new(alloc),
            order: String::new(alloc),
        }
    }

    /// Looks at the heap anew. An error is that there was no memory.
    pub fn look<S: Store + Drop>(&mut self, kernel: &Kernel<S>) -> Result<(), AllocError> {
        self.items.clear();
        self.order.clear();
        push_walk(&mut self.items, kernel)?;
        push_order(&mut self.order, kernel)
    }

    /// Whether another look would be drawn otherwise.
    pub fn differs(&self, other: &View) -> bool {
        self.items.as_slice() != other.items.as_slice() || self.order != other.order
    }
}
