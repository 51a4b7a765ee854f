// The usage line.

/// The line that is written if the words name no command.
pub const USAGE: &str = "usage: edithub init|apply|show|verify|pack|undo K|add\n";
