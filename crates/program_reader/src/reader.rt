//! The tokens that are left of a text, the first one first.
ghost use Rattle.std.specs.Prelude.{◌≡◌, ◌∷◌, ◌++◌, [], Err, Ok, false, drop, IfOk, IfErr, OnOk, MatchBool};
ghost use Rattle.program_grammar.specs.Mentions.{mention};
ghost use Rattle.program_grammar.specs.Reading.{next_offset, is_mark, next_is, word_in, next_word, mark_at, string_at};
ghost use Rattle.program_grammar.specs.Reading.{number_at, field_at, name_at, main_at, is_end, end_at};
ghost use Rattle.program_reader.specs.Gives.{Fails, Gives, GivesRest};
ghost use Rattle.program_reader.specs.declared.fault.ReadFault.TheVariants.{Ended};
ghost use Rattle.program_tokens.specs.declared.mark.Mark.TheVariants.{Comma};

use crate::fault::ReadFault;
use program_grammar::{Mention, Sort};
use program_tokens::{Keyword, Mark, PlacedToken, Token, Tokens};
use std::alloc::{AllocError, Global};
use std::marker::Model;
use std::mem;
use texts::{Name, Twin};

/// The tokens that are left of a text, and the names that those before them mentioned.
///
/// Contracts see it as a point of the text.
#[derive(Drop)]
pub(crate) struct Reader {
    left: Tokens,
    mentions: Vec<Mention>,
}

impl Model for Reader {
    ghost use Rattle.program_grammar.specs.Mentions.{Point};

    ghost Value = { Point };

    ghost view = { λ r. (r.mentions.items, r.left) };
}

impl Reader {
    /// The beginning of a text, before which nothing is mentioned.
    pub fn new(alloc: Global, left: Tokens) -> Reader
        ensures { result ≡ ([], left) }
    {
        Reader {
            left,
            mentions: Vec::new(alloc),
        }
    }

    /// Takes the next token.
    pub fn take(&mut self) -> Result<PlacedToken, ReadFault>
        ensures ok { IfOk result (λ t. self.old ≡ (self.new.0, t ∷ self.new.1)) }
        ensures ended { IfErr result (λ fault. (fault ≡ Ended) × (self.old.1 ≡ [])) }
    {
        match self.left.pop() {
            Some(token) => Ok(token),
            None => Err(ReadFault::Ended),
        }
    }

    /// Skips the next token, where one is left.
    pub fn skip(&mut self)
        ensures { self.new ≡ (self.old.0, drop 1 self.old.1) }
    {
        drop(self.left.pop());
    }

    /// The fault at the next token, whatever it is.
    pub fn next_fault(&self) -> ReadFault
        ensures { Fails {A = Unit {0}} result (Err (next_offset self.now.1)) }
    {
        match self.left.first() {
            Some(token) => ReadFault::At(token.at),
            None => ReadFault::Ended,
        }
    }

    /// Whether a mark is next.
    pub fn next_is(&self, mark: Mark) -> bool
        ensures { result ≡ next_is mark self.now.1 }
    {
        match self.left.first() {
            Some(token) => is_mark(&token.token, mark),
            None => false,
        }
    }

    /// The keyword that is next, if one is.
    pub fn next_word(&self) -> Option<Keyword>
        ensures { result ≡ next_word self.now.1 }
    {
        match self.left.first() {
            Some(token) => word_in(&token.token),
            None => None,
        }
    }

    /// Takes a mark.
    #[tactic(auto, unfolding(program_grammar::specs::Reading::mark_at))]
    pub fn take_mark(&mut self, mark: Mark) -> Result<(), ReadFault>
        ensures { GivesRest result self.new (mark_at mark self.old) }
    {
        let next = self.take()?;
        if is_mark(&next.token, mark) {
            Ok(())
        } else {
            Err(ReadFault::At(next.at))
        }
    }

    /// Takes a comma where one is next, and says whether it did.
    #[tactic(auto, unfolding(program_grammar::specs::Reading::mark_at))]
    pub fn take_comma(&mut self) -> bool
        ensures { MatchBool result (mark_at Comma self.old ≡ Ok self.new)
            ((next_is Comma self.old.1 ≡ false) × (self.new ≡ self.old)) }
    {
        if self.next_is(Mark::Comma) {
            self.skip();
            true
        } else {
            false
        }
    }

    /// Takes a string.
    #[tactic(auto, unfolding(program_grammar::specs::Reading::string_at))]
    pub fn take_string(&mut self) -> Result<Name, ReadFault>
        ensures { Gives (λ text. text) result self.new (string_at self.old) }
    {
        let next = self.take()?;
        match next.token {
            Token::Text(text) => Ok(text),
            _ => Err(ReadFault::At(next.at)),
        }
    }

    /// Takes a number.
    #[tactic(auto, unfolding(program_grammar::specs::Reading::number_at))]
    pub fn take_number(&mut self) -> Result<i64, ReadFault>
        ensures { Gives (λ number. number) result self.new (number_at self.old) }
    {
        let next = self.take()?;
        match next.token {
            Token::Number(number) => Ok(number),
            _ => Err(ReadFault::At(next.at)),
        }
    }

    /// Takes a field or a tag: a name or a string.
    #[tactic(auto, unfolding(program_grammar::specs::Reading::field_at))]
    pub fn take_field(&mut self) -> Result<Name, ReadFault>
        ensures { Gives (λ field. field) result self.new (field_at self.old) }
    {
        let next = self.take()?;
        match next.token {
            Token::Name(name) => Ok(name),
            Token::Text(text) => Ok(text),
            _ => Err(ReadFault::At(next.at)),
        }
    }

    /// Takes a name that is defined, with its offset.
    #[tactic(auto, unfolding(program_grammar::specs::Reading::name_at))]
    pub fn take_name(&mut self) -> Result<(Name, u64), ReadFault>
        ensures { Gives (λ name. name) result self.new (name_at self.old) }
    {
        let next = self.take()?;
        let at = next.at;
        match next.token {
            Token::Name(name) => Ok((name, at)),
            _ => Err(ReadFault::At(at)),
        }
    }

    /// Takes the word before the main lens.
    #[tactic(auto, unfolding(program_grammar::specs::Reading::main_at))]
    pub fn take_main(&mut self) -> Result<(), ReadFault>
        ensures rest { GivesRest result self.new.1 (main_at self.old.1) }
        ensures mentions { OnOk result (self.new.0 ≡ self.old.0) }
    {
        let next = self.take()?;
        match word_in(&next.token) {
            Some(Keyword::Main) => Ok(()),
            _ => Err(ReadFault::At(next.at)),
        }
    }

    /// Takes the end of the text. No token may follow it.
    #[tactic(auto, unfolding(program_grammar::specs::Reading::end_at))]
    pub fn take_end(&mut self) -> Result<(), ReadFault>
        ensures rest { GivesRest result self.new.1 (end_at self.old.1) }
        ensures mentions { OnOk result (self.new.0 ≡ self.old.0) }
    {
        let next = self.take()?;
        if !is_end(&next.token) {
            return Err(ReadFault::At(next.at));
        }
        match self.left.pop() {
            Some(other) => Err(ReadFault::At(other.at)),
            None => Ok(()),
        }
    }

    /// Notes that the name of a definition of this sort is mentioned at this offset.
    pub fn mention(
        &mut self,
        alloc: Global,
        sort: Sort,
        name: &Name,
        at: u64,
    ) -> Result<(), AllocError>
        ensures { OnOk result (self.new ≡ (self.old.0 ++ mention sort name.now at ∷ [], self.old.1)) }
    {
        let name = name.twin(alloc)?;
        self.mentions.push(Mention::new(sort, name, at))?;
        Ok(())
    }

    /// The names mentioned so far. Those that come next are noted anew.
    pub fn take_mentions(&mut self, alloc: Global) -> Vec<Mention>
        ensures mentions { result.items ≡ self.old.0 }
        ensures point { self.new ≡ ([], self.old.1) }
    {
        mem::replace(&mut self.mentions, Vec::new(alloc))
    }
}

/// Whether a token is this mark.
fn is_mark(token: &Token, mark: Mark) -> bool
    ensures { result ≡ is_mark mark token.now }
{
    match token {
        Token::Mark(found) => found.byte() == mark.byte(),
        _ => false,
    }
}

/// The keyword that a token is, if it is one.
fn word_in(token: &Token) -> Option<Keyword>
    ensures { result ≡ word_in token.now }
{
    match token {
        Token::Keyword(word) => Some(*word),
        _ => None,
    }
}

/// Whether a token is the end of the text.
fn is_end(token: &Token) -> bool
    ensures { result ≡ is_end token.now }
{
    match token {
        Token::End => true,
        _ => false,
    }
}
