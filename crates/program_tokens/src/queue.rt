//! The tokens that are left of a text, the first one first.
ghost use Rattle.std.specs.Prelude.{◌≡◌, ◌↔◌, ◌∷◌, ◌++◌, [], IsTrue, Some, MatchOption, OnOk, OnErr, length, slice_get};

use crate::token::PlacedToken;
use std::alloc::{AllocError, Global};
use std::collections::VecDeque;
use std::marker::Model;

/// The tokens that are left of a text, in written order.
#[derive(Drop)]
pub struct Tokens {
    items: VecDeque<PlacedToken>,
}

impl Model for Tokens {
    ghost use Rattle.std.specs.Prelude.{List};
    ghost use Rattle.program_tokens.specs.declared.token.PlacedToken.{PlacedToken};

    ghost Value = { List PlacedToken };

    ghost view = { λ t. t.items.items };
}

impl Tokens {
    /// No tokens.
    pub fn new(alloc: Global) -> Self
        ensures { result ≡ [] }
    {
        Tokens {
            items: VecDeque::new(alloc),
        }
    }

    /// How many tokens are left.
    pub fn len(&self) -> usize
        ensures { result ≡ length self.now }
    {
        self.items.len()
    }

    /// Whether none is left.
    pub fn is_empty(&self) -> bool
        ensures { IsTrue result ↔ self.now ≡ [] }
    {
        self.items.is_empty()
    }

    /// The first token that is left, or `None` where none is.
    pub fn first(&self) -> Option<&PlacedToken>
        ensures { MatchOption result (self.now ≡ []) (λ t. slice_get self.now 0 ≡ Some t.now) }
    {
        self.items.front()
    }

    /// Takes the first token that is left, or returns `None` if none is.
    pub fn pop(&mut self) -> Option<PlacedToken>
        ensures { MatchOption result ((self.old ≡ []) × (self.new ≡ [])) (λ t. self.old ≡ t ∷ self.new) }
    {
        self.items.pop_front()
    }

    /// Adds a token behind the others; an error leaves them as they were.
    pub fn push(&mut self, token: PlacedToken) -> Result<(), AllocError>
        ensures ok { OnOk result (self.new ≡ self.old ++ token ∷ []) }
        ensures err { OnErr result (self.new ≡ self.old) }
    {
        self.items.push_back(token)?;
        Ok(())
    }
}
