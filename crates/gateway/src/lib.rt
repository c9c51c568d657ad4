// The static library for the Rust gateway: each call of the crates below, by numbers and slices alone.
// Nothing checks a caller's declarations against this file: rust/ has the ones that match it.
#![tactic(auto)]

ghost use Rattle.std.specs.Prelude.{◌≡◌, length};
ghost use Rattle.enc_windows_1252.specs.Text as windows1252;
ghost use Rattle.enc_utf_8_replacing.specs.Text as utf8;
ghost use Rattle.enc_utf_16.specs.Decode as utf16_decode;
ghost use Rattle.enc_utf_16.specs.Encode as utf16_encode;
ghost use Rattle.type_provider.specs.Find.{find as find_in, found_numbers};
ghost use Rattle.type_index.specs.Index.{names_index, hinted_index};
ghost use Rattle.enc_utf_8.specs.Utf8.{well_formed};
ghost use Rattle.type_book_check.specs.Check.{check_book, book_numbers};
ghost use Rattle.gateway_codes.specs.Numbers.{found_number};
ghost use Rattle.enc_number.specs.Answer.{refusal_of, truth_number};
ghost use Rattle.gateway.specs.Calls.{BuildGiven};
ghost use Rattle.gateway.specs.Numbers.{WroteAs, FoundAs};

pub mod appending;
pub mod book;
pub mod plan;
pub mod read;
pub mod resolve;
pub mod time;
pub mod version;
pub mod walk;
pub mod write;

#[unsafe(no_mangle)]
pub extern "C" fn gateway_windows_1252_decode(bytes: &[u8], out: &mut [u8], at: usize) -> u64
    ensures { WroteAs (windows1252.decode_text bytes.now) out.old at result out.new }
{
    gateway_codes::place(enc_windows_1252_decoder::decode(bytes, out, at))
}

#[unsafe(no_mangle)]
pub extern "C" fn gateway_windows_1252_encode(text: &[u8], out: &mut [u8]) -> u64
    ensures { WroteAs (windows1252.encode_text text.now) out.old 0 result out.new }
{
    gateway_codes::place(enc_windows_1252_encoder::encode(text, out))
}

#[unsafe(no_mangle)]
pub extern "C" fn gateway_utf_16_decode(bytes: &[u8], out: &mut [u8], at: usize) -> u64
    ensures { WroteAs (utf16_decode.decode16_text bytes.now) out.old at result out.new }
{
    gateway_codes::place(enc_utf_16_decoder::decode(bytes, out, at))
}

#[unsafe(no_mangle)]
pub extern "C" fn gateway_utf_16_encode(text: &[u8], out: &mut [u8]) -> u64
    ensures { WroteAs (utf16_encode.encode16_text text.now) out.old 0 result out.new }
{
    gateway_codes::place(enc_utf_16_encoder::encode(text, out))
}

#[unsafe(no_mangle)]
pub extern "C" fn gateway_utf_8_decode(bytes: &[u8], out: &mut [u8], at: usize) -> u64
    ensures { WroteAs (utf8.decode8_text bytes.now) out.old at result out.new }
{
    gateway_codes::place(enc_utf_8_replacing::decode(bytes, out, at))
}

#[unsafe(no_mangle)]
pub extern "C" fn gateway_find(book: &[u8], name: &[u8]) -> u32
    ensures { result ≡ found_number (found_numbers (find_in book.now name.now)) }
{
    gateway_codes::found(type_provider::find(book, name))
}

#[unsafe(no_mangle)]
pub extern "C" fn gateway_find_by(book: &[u8], index: &[u32], name: &[u8]) -> u32
    ensures { FoundAs book.now name.now result }
{
    gateway_codes::found(type_index::find_by(book, index, name))
}

// Document 01's number: 0 where the index was built, for the two walks, else 1 to 4 of the book, or 6.
#[unsafe(no_mangle)]
pub extern "C" fn gateway_build_index(buffer: &[u8], len: usize, index: &mut [u32]) -> u8
    ensures { BuildGiven buffer.now len index.old result index.new }
{
    type_index_build::refusal_of_built(type_index_build::build_index(buffer, len, index))
}

// An index of the names alone, for a call or two.
#[unsafe(no_mangle)]
pub extern "C" fn gateway_fill_names(book: &[u8], index: &mut [u32])
    ensures { index.new ≡ names_index book.now (length index.old) }
{
    type_index::fill_names(book, index);
}

// An index of the names and, where it is long enough, with a hint for each block.
#[unsafe(no_mangle)]
pub extern "C" fn gateway_fill_index(book: &[u8], index: &mut [u32])
    ensures { index.new ≡ hinted_index book.now (names_index book.now (length index.old)) }
{
    type_index::fill_index(book, index);
}

// 1 where the text is well-formed UTF-8, else 0.
#[unsafe(no_mangle)]
pub extern "C" fn gateway_utf_8_well_formed(text: &[u8]) -> u8
    ensures { result ≡ truth_number (well_formed text.now) }
{
    gateway_codes::truth(enc_utf_8_decoder::well_formed(text))
}

// Document 01's number: 0 where the book is valid, else 1 to 4.
#[unsafe(no_mangle)]
pub extern "C" fn gateway_check_book(buffer: &[u8], len: usize) -> u8
    ensures { result ≡ refusal_of (book_numbers (check_book buffer.now len)) }
{
    type_book_check::refusal_of(type_book_check::check_book(buffer, len))
}
