//! Reading a JSON file.

ghost use Rattle.std.specs.Prelude.{◌≡◌, ◌≤◌, Some, IfOk, IfErr};
ghost use Rattle.std.specs.Str.{IsUtf8};
ghost use Rattle.json.specs.Lex.{tokens};
ghost use Rattle.json.specs.Json.{document, max_depth};
ghost use Rattle.json.specs.Strict.{HasUniqueKeys};
ghost use Rattle.json.specs.Tree.{depth, json_tokens, HasNumbers};
ghost use Rattle.file_trees.specs.FileTrees.{file_tree};
ghost use Rattle.file_trees.specs.Refusals.{RefusesFile, RefusesText};

use crate::fault::FileFault;
use crate::tree::{FileTree, own};
use json::{Error, Scratch, Value};
use std::alloc::Global;

/// The tree of a JSON file. A byte order mark is not JSON.
///
/// - `NotUtf8`: if and only if the bytes are not UTF-8
/// - `NotJson`: if and only if they are a text that is not JSON, or nests deeper than 128 levels
/// - `NameTwice`: if and only if they are JSON in which an object has two members of one name
pub fn read_file(alloc: Global, bytes: &[u8]) -> Result<FileTree, FileFault>
    ensures utf8 { IfOk result (λ tree. IsUtf8 bytes.now) }
    ensures tree { IfOk result (λ tree. document bytes.now ≡ Some (file_tree tree)) }

    // The file has the tokens of the tree: it differs from what is written of it by spaces and escapes alone.
    ensures tokens { IfOk result (λ tree. tokens bytes.now ≡ json_tokens (file_tree tree)) }

    // No object has a name twice, each number is one, and the tree can be written and read back.
    ensures unique { IfOk result (λ tree. HasUniqueKeys (file_tree tree)) }
    ensures numbers { IfOk result (λ tree. HasNumbers (file_tree tree)) }
    ensures nests { IfOk result (λ tree. depth (file_tree tree) ≤ max_depth) }

    ensures refusal { IfErr result (RefusesFile bytes.now) }
{
    let Ok(text) = str::from_utf8(bytes) else {
        return Err(FileFault::NotUtf8);
    };
    read_text(alloc, text)
}

fn read_text(alloc: Global, text: &str) -> Result<FileTree, FileFault>
    ensures tree { IfOk result (λ tree. document text.now ≡ Some (file_tree tree)) }
    ensures unique { IfOk result (λ tree. HasUniqueKeys (file_tree tree)) }
    ensures numbers { IfOk result (λ tree. HasNumbers (file_tree tree)) }
    ensures nests { IfOk result (λ tree. depth (file_tree tree) ≤ max_depth) }
    ensures refusal { IfErr result (RefusesText text.now) }
{
    let mut scratch = Scratch::new(alloc);
    match Value::parse_strict(alloc, text, &mut scratch) {
        Ok(value) => Ok(own(alloc, &value)?),
        Err(Error::Invalid) => Err(FileFault::NotJson),
        Err(Error::DuplicateKey) => Err(FileFault::NameTwice),
        Err(_) => Err(FileFault::NoMemory),
    }
}
