// The usage line.

/// The line that is written if the words name no command.
pub const USAGE: &str =
    "usage: editlens run|check|init|apply|show|verify|pack|gen N SEED|hub|link|undo K|import\n";
