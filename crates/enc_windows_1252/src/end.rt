// Where a text in memory ends.
ghost use Rattle.std.specs.Prelude.{◌≡◌};
ghost use Rattle.enc_windows_1252.specs.Text.{string_end};

use enc_utf_8::TextEnd;

// Where a text ends: before its first zero, or with the memory.
pub fn string_end(bytes: &[u8]) -> TextEnd
    ensures { result ≡ string_end bytes.now }
{
    match bytes.iter().position(|&byte| byte == 0) {
        Some(end) => TextEnd::Terminated(end),
        None => TextEnd::Unterminated(bytes.len()),
    }
}
