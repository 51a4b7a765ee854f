//! Writing a JSON file.

ghost use Rattle.std.specs.Prelude.{◌≡◌, ◌≤◌, Some, IfOk};
ghost use Rattle.std.specs.Str.{IsUtf8};
ghost use Rattle.json.specs.Json.{document, max_depth};
ghost use Rattle.json.specs.Print.{print};
ghost use Rattle.json.specs.Tree.{depth, json_tokens, HasNumbers};
ghost use Rattle.file_trees.specs.FileTrees.{file_tree};

use crate::lend::lend;
use crate::tree::FileTree;
use json::to_vec;
use std::alloc::{AllocError, Global};

/// The bytes of a file that has this tree, with no space between its parts.
///
/// Each number of the tree has the text of a number. Fails only if memory runs out.
pub fn write_file(alloc: Global, tree: &FileTree) -> Result<Vec<u8>, AllocError>
    requires { HasNumbers (file_tree tree.now) }

    ensures text { IfOk result (λ bytes. bytes.items ≡ print (json_tokens (file_tree tree.now))) }
    ensures utf8 { IfOk result (λ bytes. IsUtf8 bytes.items) }

    // What is written is read back as it was, unless it nests too deep for a reader.
    ensures reads_back { IfOk result (λ bytes. depth (file_tree tree.now) ≤ max_depth
        → document bytes.items ≡ Some (file_tree tree.now)) }
{
    let value = lend(alloc, tree)?;
    to_vec(alloc, &value)
}
