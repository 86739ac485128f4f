// The C interface: the calls of the crate exports under their C names, in a crate of its own, since a static library is one.
#![tactic(auto)]

ghost use Rattle.names.specs.Name.{name_place};
ghost use Rattle.scopes.specs.Resolve.{resolve};
ghost use Rattle.scopes.specs.Lookup.{lookup_call};
ghost use Rattle.index.specs.Index.{index_call, indexed_call};
ghost use Rattle.bindings.specs.Errors.{errors};
ghost use Rattle.sorted.specs.Sorted.{sorted};
ghost use Rattle.rename.specs.Rename.{rename};
ghost use Rattle.occurrences.specs.Occurrences as CallsSpec;
ghost use Rattle.exports.specs.Packed.{Packs, Leaves, LeavesRows, LeavesIndex, LeavesOutput, Places};

// Resolve: fills the table.
#[unsafe(no_mangle)]
pub extern "C" fn eqlog_resolve(image: &[u8], table: &mut [u32]) -> u64
    ensures { Leaves (resolve image.now table.old) result table.new }
{
    exports::eqlog_resolve(image, table)
}

// Lookup: what a name, given by its bytes, is in a scope of a table, and which scope holds it.
#[unsafe(no_mangle)]
pub extern "C" fn eqlog_lookup(image: &[u8], table: &[u32], scope: u32, name: &[u8]) -> u64
    ensures { Packs result (lookup_call image.now table.now scope name.now) }
{
    exports::eqlog_lookup(image, table, scope, name)
}

// Index: writes the name index of a table.
#[unsafe(no_mangle)]
pub extern "C" fn eqlog_index(image: &[u8], table: &[u32], index: &mut [u32]) -> u64
    ensures { LeavesIndex (index_call image.now table.now index.old) result index.new }
{
    exports::eqlog_index(image, table, index)
}

// Lookup through the index: as Lookup, along the chain of the name in the table's index.
#[unsafe(no_mangle)]
pub extern "C" fn eqlog_lookup_indexed(
    image: &[u8],
    table: &[u32],
    index: &[u32],
    scope: u32,
    name: &[u8],
) -> u64
    ensures { Packs result (indexed_call image.now table.now index.now scope name.now) }
{
    exports::eqlog_lookup_indexed(image, table, index, scope, name)
}

// Errors: resolves, then writes the error rows. Mode 1 is plain; 0, the default, and 2 are strict.
#[unsafe(no_mangle)]
pub extern "C" fn eqlog_errors(image: &[u8], table: &mut [u32], rows: &mut [u32], mode: u32) -> u64
    ensures { LeavesRows (errors image.now table.old rows.old mode) result table.new rows.new }
{
    exports::eqlog_errors(image, table, rows, mode)
}

// Sorted: as Errors, with the rows by place.
#[unsafe(no_mangle)]
pub extern "C" fn eqlog_sorted(image: &[u8], table: &mut [u32], rows: &mut [u32], mode: u32) -> u64
    ensures { LeavesRows (sorted image.now table.old rows.old mode) result table.new rows.new }
{
    exports::eqlog_sorted(image, table, rows, mode)
}

// Once: resolves, then looks for the first lone occurrence.
#[unsafe(no_mangle)]
pub extern "C" fn eqlog_once(image: &[u8], table: &mut [u32]) -> u64
    ensures { Leaves (CallsSpec.once image.now table.old) result table.new }
{
    exports::eqlog_once(image, table)
}

// Occurrences: resolves, then lists every variable occurrence with its binding.
#[unsafe(no_mangle)]
pub extern "C" fn eqlog_occurrences(image: &[u8], table: &mut [u32], rows: &mut [u32]) -> u64
    ensures { LeavesRows (CallsSpec.occurrences image.now table.old rows.old) result table.new rows.new }
{
    exports::eqlog_occurrences(image, table, rows)
}

// Rename: resolves and lists as Occurrences does, then writes the image in which the occurrences of a binding have another name.
#[unsafe(no_mangle)]
pub extern "C" fn eqlog_rename(
    image: &[u8],
    table: &mut [u32],
    rows: &mut [u32],
    binding: u32,
    name: u32,
    output: &mut [u8],
) -> u64
    ensures { LeavesOutput (rename image.now table.old rows.old binding name output.old) result table.new rows.new output.new }
{
    exports::eqlog_rename(image, table, rows, binding, name, output)
}

// Name: where the name's bytes stand in the image, start and length; 0 where there is none.
#[unsafe(no_mangle)]
pub extern "C" fn eqlog_name(image: &[u8], name: u32) -> u64
    ensures { Places result (name_place image.now name) }
{
    exports::eqlog_name(image, name)
}
