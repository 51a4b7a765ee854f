//! The numbers of statuses, of causes and of what can be shown. `editlens.h` has the same.

/// The call did what it was asked; the item was accepted.
pub const DONE: u32 = 0;
/// The line is blank, and so it is not an item.
pub const BLANK: u32 = 1;
/// The item is refused, for the cause beside it, and the documents are as before.
pub const REFUSED: u32 = 2;
/// There is no session, since its program is refused, for the cause beside it.
pub const PROGRAM_REFUSED: u32 = 3;
/// There is no session, since the texts of its state are refused, for the cause beside it.
pub const STATE_REFUSED: u32 = 4;
/// There is no session, since memory ran out when it was opened.
pub const NO_SESSION: u32 = 5;
/// Memory ran out, and the session is as before.
pub const NO_MEMORY: u32 = 6;
/// The buffer is too small for the text, and as before.
pub const SMALL_BUFFER: u32 = 7;
/// A line feed is in the line, and nothing changed.
pub const LINE_FEED: u32 = 8;
/// The number is not one of what can be shown, and nothing changed.
pub const UNKNOWN_PART: u32 = 9;
/// No further item has a number, and nothing changed.
pub const FULL: u32 = 10;
/// There is no session, since the records of its log are refused, for the cause beside it.
pub const RECORDS_REFUSED: u32 = 11;
/// The part is one of the last change, and the last line was not a change that was accepted. Nothing changed.
pub const NO_CHANGE: u32 = 12;

/// Nothing was done: the address is NULL, or nothing is open there; or, of a call that opens, something is open there
/// already.
pub const NOT_OPEN: u32 = 13;

/// The number of this interface: it is raised where a caller has to be compiled anew.
pub const VERSION: u32 = 2;
/// How many bytes of an answer have a meaning. Those behind them are 0.
pub const ANSWER_SIZE: u64 = 48;

/// The word of magic of an open session.
pub const SESSION_WORD: u64 = 0x6564_6974_7365_7373;
/// The word of magic of an open hub.
pub const HUB_WORD: u64 = 0x6564_6974_6875_6273;

/// The three state lines.
pub const STATE: u32 = 0;
/// The left document.
pub const LEFT: u32 = 1;
/// The complement.
pub const COMPLEMENT: u32 = 2;
/// The right document.
pub const RIGHT: u32 = 3;
/// The left type.
pub const LEFT_TYPE: u32 = 4;
/// The right type.
pub const RIGHT_TYPE: u32 = 5;
/// The payload of a snapshot.
pub const SNAPSHOT: u32 = 6;
/// The payload of the last change.
pub const CHANGE: u32 = 7;
/// The word that takes the left document back over the last change.
pub const UNDO_LEFT: u32 = 8;
/// The word that takes the right document back over the last change.
pub const UNDO_RIGHT: u32 = 9;

/// There is no cause to name.
pub const NO_CAUSE: u32 = 0;

/// `kind`: the primitive is not one of the type, or sets a value of another kind.
pub const KIND: u32 = 1;
/// `place`: the field, item, key or node does not exist.
pub const PLACE: u32 = 2;
/// `tag`: the tag is not the document's, or not a tag of the type.
pub const TAG: u32 = 3;
/// `range`: a number of characters, items or children is out of range.
pub const RANGE: u32 = 4;
/// `overflow`: the sum does not fit in 64 bits.
pub const OVERFLOW: u32 = 5;
/// `value`: the text is not a member of the enum.
pub const VALUE: u32 = 6;
/// `present`: the key is there already.
pub const PRESENT: u32 = 7;
/// `length`: the new order has not the same number of places as the list.
pub const LENGTH: u32 = 8;
/// `deep`: a node would be too deep.
pub const DEEP: u32 = 9;

/// `line-too-long`.
pub const LINE_TOO_LONG: u32 = 11;
/// `not-json`.
pub const NOT_JSON: u32 = 12;
/// `not-an-entry`.
pub const NOT_AN_ENTRY: u32 = 13;
/// `not-an-edit`.
pub const NOT_AN_EDIT: u32 = 14;

/// `program-too-long`.
pub const PROGRAM_TOO_LONG: u32 = 21;
/// `not-a-program`, with the offset of the unexpected token.
pub const NOT_A_PROGRAM: u32 = 22;
/// `unknown-name`, with the offset of the name.
pub const UNKNOWN_NAME: u32 = 23;
/// `repeated-name`, with the offset of the name.
pub const REPEATED_NAME: u32 = 24;
/// `middle-differs`.
pub const MIDDLE_DIFFERS: u32 = 25;
/// `repeated-field`.
pub const REPEATED_FIELD: u32 = 26;
/// `repeated-tag`.
pub const REPEATED_TAG: u32 = 27;
/// `repeated-member`.
pub const REPEATED_MEMBER: u32 = 28;
/// `not-a-member`.
pub const NOT_A_MEMBER: u32 = 29;
/// `too-large`.
pub const TOO_LARGE: u32 = 30;
/// `too-deep`.
pub const TOO_DEEP: u32 = 31;

/// The first text is not the JSON of a document of the left type.
pub const NOT_LEFT: u32 = 41;
/// The second text is not the JSON of a complement of the lens.
pub const NOT_COMPLEMENT: u32 = 42;
/// The third text is not the JSON of a document of the right type.
pub const NOT_RIGHT: u32 = 43;
/// The three are not consistent.
pub const NOT_CONSISTENT: u32 = 44;

/// The record is not one that may stand there, with its number.
pub const BAD_RECORD: u32 = 51;
/// The record is a snapshot whose documents and complement are not consistent, with its number.
pub const RECORD_NOT_CONSISTENT: u32 = 52;
