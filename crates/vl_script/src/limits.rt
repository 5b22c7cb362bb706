/// The longest line of a script, in bytes, without its end.
pub const MAX_LINE_BYTES: usize = 17_000_000;

/// The longest name that a script may give, in bytes.
pub const MAX_IDENT_BYTES: usize = 16;
