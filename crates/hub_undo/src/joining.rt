// Words of all documents of a hub, joined.

ghost use Rattle.std.specs.Prelude.{◌≡◌, IfOk, length};
ghost use Rattle.edit_module.specs.Views.{word_tree, word_trees};
ghost use Rattle.edit_module.specs.Words.{joined};
ghost use Rattle.view_hub.specs.Views.{hub_carried_tree};
ghost use Rattle.hub_undo.specs.HubUndone.{joined_carried, joined_views, no_view_words, no_hub_words};
ghost use Rattle.hub_undo.specs.UndoSteps.{HasViews, joined_all};
ghost use Rattle.hub_undo.specs.UndoViews.{carried_trees};

use edit_module::change::Words;
use edit_module::word::Word;
use std::alloc::{AllocError, Global};
use view_hub::HubCarried;

// At each document the words of the parts from the last to the first, as one. Each part has a word for each view.
pub(crate) fn join_all(
    alloc: Global,
    views: usize,
    parts: Vec<HubCarried>,
) -> Result<HubCarried, AllocError>
    requires views { HasViews views (carried_trees parts.items) }
    ensures { IfOk result (λ words. hub_carried_tree words ≡ joined_all views (carried_trees parts.items)) }
{
    let mut parts = parts;
    let mut all = none_of(alloc, views)?;
    'parts: while let Some(part) = parts.pop() {
        let longer = join(alloc, all, part)?;
        all = longer;
    }
    Ok(all)
}

// The words that do nothing, for a hub with so many views.
fn none_of(alloc: Global, views: usize) -> Result<HubCarried, AllocError>
    ensures { IfOk result (λ words. hub_carried_tree words ≡ no_hub_words views) }
{
    let hub = Word::from_vec(Vec::new(alloc));
    let views = no_view_words(alloc, views)?;
    Ok(HubCarried { hub, views })
}

fn no_view_words(alloc: Global, views: usize) -> Result<Words, AllocError>
    ensures { IfOk result (λ words. word_trees words ≡ no_view_words views) }
{
    let mut words = Vec::with_capacity(alloc, views)?;
    for _ in 0..views {
        let none = Word::from_vec(Vec::new(alloc));
        words.push(none)?;
    }
    Ok(Words::from_vec(words))
}

// At each document the first word and then the second. The two have as many views.
fn join(alloc: Global, first: HubCarried, second: HubCarried) -> Result<HubCarried, AllocError>
    requires views { length first.views ≡ length second.views }
    ensures { IfOk result (λ words. hub_carried_tree words
        ≡ joined_carried (hub_carried_tree first) (hub_carried_tree second)) }
{
    let hub = join_words(first.hub, second.hub)?;
    let views = join_views(alloc, first.views.into_vec(), second.views.into_vec())?;
    Ok(HubCarried { hub, views })
}

fn join_words(first: Word, second: Word) -> Result<Word, AllocError>
    ensures { IfOk result (λ word. word_tree word ≡ joined (word_tree first) (word_tree second)) }
{
    let mut primitives = first.into_vec();
    let mut more = second.into_vec();
    primitives.append(&mut more)?;
    Ok(Word::from_vec(primitives))
}

// The words of the views, joined one by one, from the last to the first.
fn join_views(alloc: Global, first: Vec<Word>, second: Vec<Word>) -> Result<Words, AllocError>
    requires views { length first.items ≡ length second.items }
    ensures { IfOk result (λ words. word_trees words
        ≡ joined_views (word_trees first.items) (word_trees second.items)) }
{
    let mut first = first;
    let mut second = second;
    let mut joined = Vec::with_capacity(alloc, first.len())?;
    'views: while let Some(word) = first.pop() {
        let Some(other) = second.pop() else {
            unreachable!()
        };
        let both = join_words(word, other)?;
        joined.push(both)?;
    }
    joined.reverse();
    Ok(Words::from_vec(joined))
}
