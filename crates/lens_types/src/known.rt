//! What a definition stands for: a term whose names are expanded, with its parts and heights.

use program_terms::{Lens, TyExpr};

// What a definition stands for. An alias of an earlier definition stands for the same as that one.
#[derive(Clone, Copy)]
pub(crate) enum Known<'a> {
    OfType(KnownType<'a>),
    OfLens(KnownLens<'a>),
}

// A type, whose names refer to the first definitions of the program, `scope` of them.
#[derive(Clone, Copy)]
pub(crate) struct KnownType<'a> {
    pub(crate) ty: &'a TyExpr,
    pub(crate) scope: usize,
    pub(crate) parts: usize,
    pub(crate) height: u32,
}

// A lens, whose names refer to the first definitions of the program, `scope` of them.
#[derive(Clone, Copy)]
pub(crate) struct KnownLens<'a> {
    pub(crate) lens: &'a Lens,
    pub(crate) scope: usize,
    pub(crate) parts: usize,
    pub(crate) height: u32,
    pub(crate) sides: SideHeights,
}

// The heights of the types of both sides, or of the highest among some fields of both sides.
#[derive(Clone, Copy)]
pub(crate) struct SideHeights {
    pub(crate) left: u32,
    pub(crate) right: u32,
}
