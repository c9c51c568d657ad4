// The decoders of texts: where a text ends, and its bytes in UTF-8.
#![tactic(auto)]

ghost use Rattle.std.specs.Prelude.{◌≡◌};
ghost use Rattle.enc_utf_8.specs.Buffer.{Wrote};
ghost use Rattle.enc_text_decoder.specs.Text.{end_by, decoded_by};

use enc_utf_8::TextEnd;

#[derive(Clone, Copy)]
pub enum Decoder {
    Windows1252,
    Utf16,
    // A STRING that is marked so.
    Utf8,
}

// The end of a text: the number of bytes before it, and whether it is a terminator.
pub fn text_end(decoder: Decoder, bytes: &[u8]) -> TextEnd
    ensures { result ≡ end_by decoder bytes.now }
{
    match decoder {
        Decoder::Windows1252 => enc_windows_1252::string_end(bytes),
        Decoder::Utf16 => enc_utf_16::wstring_end(bytes),
        Decoder::Utf8 => enc_windows_1252::string_end(bytes),
    }
}

// A text's bytes in UTF-8, at a place of the text buffer.
pub fn decode(decoder: Decoder, bytes: &[u8], text: &mut [u8], at: usize) -> Option<usize>
    ensures { Wrote (decoded_by decoder bytes.now) text.old at result text.new }
{
    match decoder {
        Decoder::Windows1252 => enc_windows_1252_decoder::decode(bytes, text, at),
        Decoder::Utf16 => enc_utf_16_decoder::decode(bytes, text, at),
        Decoder::Utf8 => enc_utf_8_replacing::decode(bytes, text, at),
    }
}
