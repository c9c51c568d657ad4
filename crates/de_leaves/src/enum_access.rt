// An enum's entry by its value.
ghost use Rattle.std.specs.Prelude.{◌≡◌, ◌+◌, ◌<◌};
ghost use Rattle.de_leaves.specs.Leaf.{entry_from};

// The first of the k entry blocks from block n on whose value is these bytes, length and all.
pub(crate) fn find_entry(book: &[u8], bytes: &[u8], n: u32, k: u32) -> Option<u32>
    requires { n + k < 65537 }
    ensures { result ≡ entry_from book.now bytes.now n k }
{
    for i in n..n + k {
        if type_book::block::same_name(type_book::block::value(book, i), bytes) {
            return Some(i);
        }
    }
    None
}
