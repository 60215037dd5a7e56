//! Laws of every text of hexadecimal digits.

ghost use Rattle.hex_text.specs.HexText.{HexIsRead};

/// A text has bytes exactly if it is an optional `0x`, two hexadecimal digits of either case for
/// each byte, and an optional line end (LF or CR LF). Its bytes are those.
pub fn hex_is_read()
    ensures { HexIsRead }
{}
