//! A bridge between two texts: it begins with one text twice, and both may be spliced.
ghost use Rattle.std.specs.Prelude.{◌≡◌, [], IfOk};
ghost use Rattle.texts.specs.Characters.{character_count};
ghost use Rattle.bridge_texts.specs.Runs.{far_spliced, near_spliced, near_replaced, carried, shortest};

use crate::building::{
    Parts, cut, cut_behind_gap, drop_kept_end, far_total, push_around, push_behind_gap,
};
use crate::pieces::{Splice, pieces};
use crate::run::{End, Run};
use std::alloc::{AllocError, Global};
use std::marker::Model;

/// How a text, the far one, differs from another, the near one, by the splices that were made of it.
///
/// Contracts see it as the list of its runs.
#[derive(Debug, Drop)]
pub struct TextBridge {
    runs: Vec<Run>,
}

impl Model for TextBridge {
    ghost use Rattle.std.specs.Prelude.{List};
    ghost use Rattle.bridge_texts.specs.declared.run.Run.{Run};

    ghost Value = { List Run };

    ghost view = { λ b. b.runs.items };
}

/// A splice of the near text, carried to the far one.
#[derive(Debug, Drop)]
pub struct Carried {
    /// What the splice is for the far text: splices, to be made one after another.
    pub splices: Vec<Splice>,
    /// The bridge between both texts after them.
    pub bridge: TextBridge,
}

impl TextBridge {
    /// The bridge between a text and itself. Does not allocate.
    pub fn between_the_same(alloc: Global) -> Self
        ensures { result ≡ [] }
    {
        TextBridge {
            runs: Vec::new(alloc),
        }
    }

    /// The runs, from the beginning of both texts. Behind the last of them both have the same characters.
    pub fn runs(&self) -> &[Run]
        ensures { result.now ≡ self.now }
    {
        self.runs.as_slice()
    }

    /// The bridge after a splice of the far text: `count` characters from place `at` on are replaced by `added` others.
    ///
    /// The only refusal is running out of memory. A number of characters that does not fit in 64 bits is refused so.
    pub fn after_splice(
        &self,
        alloc: Global,
        at: u64,
        count: u64,
        added: u64,
    ) -> Result<TextBridge, AllocError>
        ensures { IfOk result (λ bridge. bridge ≡ shortest (far_spliced self.now at count added)) }
    {
        let parts = cut(alloc, End::Far, &self.runs, at)?;
        let range = cut(alloc, End::Far, &parts.back, count)?;
        let mut runs = Vec::new(alloc);
        push_around(&mut runs, &parts.front, Run::Added(added), &range)?;
        drop_kept_end(&mut runs);
        Ok(TextBridge { runs })
    }

    /// A splice that the near text takes, carried to the far one: what it is for the far text, and the bridge between
    /// both texts afterwards.
    ///
    /// What the far text has added at the place of the splice stays in front of what the splice puts there, and what it
    /// has added among the characters that go stays. The only refusal is running out of memory. A number of characters
    /// that does not fit in 64 bits is refused so.
    pub fn carry(&self, alloc: Global, splice: &Splice) -> Result<Carried, AllocError>
        ensures splices { IfOk result (λ it. it.splices.items ≡ carried self.now splice.now.0 splice.now.1 splice.now.2) }
        ensures bridge { IfOk result (λ it. it.bridge ≡ shortest (near_spliced self.now splice.now.0 splice.now.1
            (character_count splice.now.2))) }
    {
        let parts = cut_behind_gap(alloc, &self.runs, splice.at)?;
        let range = cut(alloc, End::Near, &parts.back, splice.count)?;
        let splices = pieces(alloc, far_total(&parts.front)?, &splice.text, &range.front)?;
        let bridge = replaced(
            alloc,
            &parts.front,
            splice.text.character_count() as u64,
            &range,
        )?;
        Ok(Carried { splices, bridge })
    }
}

// The bridge when this number of characters of both texts comes behind runs, and the near text has lost a range there.
fn replaced(
    alloc: Global,
    front: &[Run],
    count: u64,
    range: &Parts,
) -> Result<TextBridge, AllocError>
    ensures { IfOk result (λ bridge. bridge ≡ shortest (near_replaced (front.now, range.now.front.items, range.now.back.items) count)) }
{
    let mut runs = Vec::new(alloc);
    push_behind_gap(&mut runs, front, Run::Kept(count), range)?;
    drop_kept_end(&mut runs);
    Ok(TextBridge { runs })
}
