// The usage line.

/// The line that is written if the words name no command.
pub const USAGE: &str = "usage: editstore compact|copy|back N|check\n";
