// The exit statuses that are no number of a refusal.
pub const DONE: i32 = 0;
// Wrong words on the command line.
pub const WRONG_WORDS: i32 = 64;
// A text that is no shelf.
pub const WRONG_TEXT: i32 = 65;
// A file that cannot be read, or a write that fails.
pub const FAILED: i32 = 74;
