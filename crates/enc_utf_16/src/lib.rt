// UTF-16LE, the encoding of a WSTRING: its definitions, and where its text ends. The decoder and the encoder stand in crates of
// their own.
#![tactic(auto)]

ghost use Rattle.std.specs.Prelude.{◌≡◌};
ghost use Rattle.enc_utf_16.specs.WString.{wstring_end};

use enc_utf_8::TextEnd;

// Where the text of a WSTRING ends: at the first aligned zero pair, else after all bytes.
pub fn wstring_end(bytes: &[u8]) -> TextEnd
    ensures { result ≡ wstring_end bytes.now }
{
    let (units, _) = bytes.as_chunks::<2>();
    match units.iter().position(|unit| *unit == [0, 0]) {
        Some(n) => TextEnd::Terminated(2 * n),
        None => TextEnd::Unterminated(bytes.len()),
    }
}
