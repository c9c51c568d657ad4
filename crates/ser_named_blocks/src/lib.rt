// The fields and the entries of a type by their names: the first of a name.
#![tactic(auto)]

ghost use Rattle.std.specs.Prelude.{◌≡◌, ◌+◌, ◌<◌};
ghost use Rattle.type_book.specs.Book.{fields_of, entries_of};
ghost use Rattle.ser_named_blocks.specs.Named.{named_from, field_named, entry_named};

// The first of the k blocks from block n on that has this name.
fn find_named(book: &[u8], name: &[u8], n: u32, k: u32) -> Option<u32>
    requires { n + k < 65537 }
    ensures { result ≡ named_from book.now name.now n k }
{
    for i in n..n + k {
        if type_book::block::same_name(type_book::block::name(book, i), name) {
            return Some(i);
        }
    }
    None
}

// The first field of type block t that has this name.
pub fn field_by_name(book: &[u8], t: u32, name: &[u8]) -> Option<u32>
    requires { t + fields_of book.now t + entries_of book.now t < 65536 }
    ensures { result ≡ field_named book.now t name.now }
{
    find_named(book, name, t + 1, type_book::block::fields(book, t))
}

// The first enum entry of type block t that has this name.
pub fn entry_by_name(book: &[u8], t: u32, name: &[u8]) -> Option<u32>
    requires { t + fields_of book.now t + entries_of book.now t < 65536 }
    ensures { result ≡ entry_named book.now t name.now }
{
    let first = t + 1 + type_book::block::fields(book, t);
    find_named(book, name, first, type_book::block::entries(book, t))
}
