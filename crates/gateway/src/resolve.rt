// Aliases, references and fields. The calls whose names end in `_in` take a book that was checked once.
ghost use Rattle.std.specs.Prelude.{◌≡◌, true, false, length};
ghost use Rattle.type_book.specs.Book.{is_type};
ghost use Rattle.type_book_check.specs.Check.{ValidBook};
ghost use Rattle.resolvers.specs.Resolve.{resolve_alias, resolve_indirection};
ghost use Rattle.type_book_check.specs.Given.{name as by_name};
ghost use Rattle.resolvers.specs.Calls.{resolution_numbers, root_alias, root_indirection, given_resolution};
ghost use Rattle.resolve_field_types.specs.Calls.{root_fields, root_records, given_fields, given_records, fields_answer, field_records, record_room};
ghost use Rattle.gateway_lent_values.specs.Values.{Gives};
ghost use Rattle.gateway.specs.Calls.{ChainGiven, FieldsGiven};

use gateway_resolver_answers::{give_fields, give_resolution, give_resolved};

// The block that the root comes to with its aliases resolved.
#[unsafe(no_mangle)]
pub extern "C" fn gateway_resolve_alias(
    buffer: &[u8],
    len: usize,
    width: u8,
    root: u64,
    values: &mut [u64],
) -> u8
    ensures { Gives (resolution_numbers (root_alias buffer.now len width root)) values.old result values.new }
{
    give_resolution(resolvers::resolve_alias(buffer, len, width, root), values)
}

// The block that the root comes to with its aliases and references resolved.
#[unsafe(no_mangle)]
pub extern "C" fn gateway_resolve_indirection(
    buffer: &[u8],
    len: usize,
    width: u8,
    root: u64,
    values: &mut [u64],
) -> u8
    ensures { Gives (resolution_numbers (root_indirection buffer.now len width root)) values.old result values.new }
{
    give_resolution(
        resolvers::resolve_indirection(buffer, len, width, root),
        values,
    )
}

// Both for a root that is given by its name.
#[unsafe(no_mangle)]
pub extern "C" fn gateway_resolve_alias_named(
    buffer: &[u8],
    len: usize,
    width: u8,
    name: &[u8],
    values: &mut [u64],
) -> u8
    ensures { Gives (resolution_numbers (given_resolution false buffer.now len width (by_name name.now))) values.old result values.new }
{
    give_resolution(
        resolvers::resolve_alias_named(buffer, len, width, name),
        values,
    )
}

#[unsafe(no_mangle)]
pub extern "C" fn gateway_resolve_indirection_named(
    buffer: &[u8],
    len: usize,
    width: u8,
    name: &[u8],
    values: &mut [u64],
) -> u8
    ensures { Gives (resolution_numbers (given_resolution true buffer.now len width (by_name name.now))) values.old result values.new }
{
    give_resolution(
        resolvers::resolve_indirection_named(buffer, len, width, name),
        values,
    )
}

#[unsafe(no_mangle)]
pub extern "C" fn gateway_resolve_alias_in(
    book: &[u8],
    index: &[u32],
    width: u8,
    root: u32,
    values: &mut [u64],
) -> u8
    requires { ValidBook book.now × (is_type book.now root ≡ true) }
    ensures { ChainGiven book.now (resolve_alias book.now width root) values.old result values.new }
{
    give_resolved(
        resolvers::resolve_alias_in(book, index, width, root),
        values,
    )
}

#[unsafe(no_mangle)]
pub extern "C" fn gateway_resolve_indirection_in(
    book: &[u8],
    index: &[u32],
    width: u8,
    root: u32,
    values: &mut [u64],
) -> u8
    requires { ValidBook book.now × (is_type book.now root ≡ true) }
    ensures { ChainGiven book.now (resolve_indirection book.now width root) values.old result values.new }
{
    give_resolved(
        resolvers::resolve_indirection_in(book, index, width, root),
        values,
    )
}

// The records of the root's fields, and how many fields there are.
#[unsafe(no_mangle)]
pub extern "C" fn gateway_resolve_fields(
    buffer: &[u8],
    len: usize,
    width: u8,
    root: u64,
    records: &mut [u32],
    values: &mut [u64],
) -> u8
    ensures { FieldsGiven (root_fields buffer.now len width root (record_room (length records.old))) (root_records buffer.now len width root) records.old values.old result records.new values.new }
{
    give_fields(
        resolve_field_types::resolve_fields(buffer, len, width, root, records),
        values,
    )
}

// The same for a root that is given by its name.
#[unsafe(no_mangle)]
pub extern "C" fn gateway_resolve_fields_named(
    buffer: &[u8],
    len: usize,
    width: u8,
    name: &[u8],
    records: &mut [u32],
    values: &mut [u64],
) -> u8
    ensures { FieldsGiven (given_fields buffer.now len width (by_name name.now) (record_room (length records.old))) (given_records buffer.now len width (by_name name.now)) records.old values.old result records.new values.new }
{
    give_fields(
        resolve_field_types::resolve_fields_named(buffer, len, width, name, records),
        values,
    )
}

#[unsafe(no_mangle)]
pub extern "C" fn gateway_resolve_fields_in(
    book: &[u8],
    index: &[u32],
    width: u8,
    root: u32,
    records: &mut [u32],
    values: &mut [u64],
) -> u8
    requires { ValidBook book.now × (is_type book.now root ≡ true) }
    ensures { FieldsGiven (fields_answer book.now width root (record_room (length records.old))) (field_records book.now width root) records.old values.old result records.new values.new }
{
    give_fields(
        resolve_field_types::resolve_fields_in(book, index, width, root, records),
        values,
    )
}
