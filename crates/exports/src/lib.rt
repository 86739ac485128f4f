// The public calls, each with its answer packed in one number. exports_c hands these to C.
#![tactic(auto, unfolding(crate::specs::Packed::packed, ast::specs::Answer::Fits))]

ghost use Rattle.std.specs.Prelude.{◌≡◌, ◌≤◌};
ghost use Rattle.names.specs.Name.{name_place};
ghost use Rattle.scopes.specs.Answers.{resolved_answer, looked_answer, rowed_answer};
ghost use Rattle.scopes.specs.Resolve.{resolve};
ghost use Rattle.scopes.specs.Lookup.{lookup_call};
ghost use Rattle.index.specs.Index.{index_answer, index_call, indexed_call};
ghost use Rattle.bindings.specs.Errors.{errors};
ghost use Rattle.sorted.specs.Sorted.{sorted};
ghost use Rattle.rename.specs.Rename.{rename};
ghost use Rattle.occurrences.specs.Answers.{once_answer};
ghost use Rattle.occurrences.specs.Occurrences as CallsSpec;
ghost use Rattle.ast.specs.Answer.{refused, Short, Fits};
ghost use Rattle.error.specs.Refusals.{refusal_number, unresolved_answer};
ghost use Rattle.exports.specs.Packed.{fields, packed, Packs, Leaves, LeavesRows, LeavesIndex, LeavesOutput, Places};

use ast::NodeId;
use error::{Refusal, Unresolved};
use occurrences::Lone;
use scopes::{Looked, Resolved};
use table::ScopeId;

// A tag and three fields of 16 bits. (The C interface needs it: an answer is one number, and modes, scopes and names are numbers.)
fn pack(tag: u64, a: u32, b: u32, c: u32) -> u64
    requires { (tag ≤ 3) × (Short a) × (Short b) × (Short c) }
    ensures { result ≡ fields tag a b c }
{
    tag * 281474976710656 + u64::from(a) * 4294967296 + u64::from(b) * 65536 + u64::from(c)
}

// A refusal.
fn pack_refused(refusal: Refusal) -> u64
    ensures { result ≡ packed (refused (refusal_number refusal)) }
{
    pack(0, 0, 0, u32::from(refusal))
}

// A refusal, or the finding "twice". That its numbers fit is asked for: a `Result` can have no invariant.
fn pack_unresolved(answer: Unresolved) -> u64
    requires { Fits (unresolved_answer answer) }
    ensures { result ≡ packed (unresolved_answer answer) }
{
    match answer {
        Unresolved::Refused(refusal) => pack_refused(refusal),
        Unresolved::Twice(twice) => pack(1, twice.name, twice.first.0, twice.second.0),
    }
}

// What Resolve hands back. This and the next four differ in what they make of a result: what they share stands above.
fn pack_resolved(answer: Result<Resolved, Unresolved>) -> u64
    requires { Fits (resolved_answer answer) }
    ensures { result ≡ packed (resolved_answer answer) }
{
    match answer {
        Ok(resolved) => pack(2, 0, resolved.scopes, resolved.symbols),
        Err(unresolved) => pack_unresolved(unresolved),
    }
}

// What Lookup hands back.
fn pack_looked(answer: Result<Option<Looked>, Refusal>) -> u64
    requires { Fits (looked_answer answer) }
    ensures { result ≡ packed (looked_answer answer) }
{
    match answer {
        Ok(Some(looked)) => pack(2, looked.scope.0, u32::from(looked.symbol), looked.node.0),
        Ok(None) => pack(3, 0, 0, 0),
        Err(refusal) => pack_refused(refusal),
    }
}

// What Index hands back.
fn pack_indexed(answer: Result<u32, Refusal>) -> u64
    requires { Fits (index_answer answer) }
    ensures { result ≡ packed (index_answer answer) }
{
    match answer {
        Ok(rows) => pack(2, 0, 0, rows),
        Err(refusal) => pack_refused(refusal),
    }
}

// What the calls that write rows hand back, a count, and Rename, a length.
fn pack_rowed(answer: Result<u32, Unresolved>) -> u64
    requires { Fits (rowed_answer answer) }
    ensures { result ≡ packed (rowed_answer answer) }
{
    match answer {
        Ok(count) => pack(2, 0, 0, count),
        Err(unresolved) => pack_unresolved(unresolved),
    }
}

// What Once hands back.
fn pack_once(answer: Result<Option<Lone>, Unresolved>) -> u64
    requires { Fits (once_answer answer) }
    ensures { result ≡ packed (once_answer answer) }
{
    match answer {
        Ok(None) => pack(2, 0, 0, 0),
        Ok(Some(lone)) => pack(3, 0, lone.node.0, lone.binding.0),
        Err(unresolved) => pack_unresolved(unresolved),
    }
}

// Resolve: fills the table.
pub fn eqlog_resolve(image: &[u8], table: &mut [u32]) -> u64
    ensures { Leaves (resolve image.now table.old) result table.new }
{
    pack_resolved(scopes::resolve_scopes(image, table))
}

// Lookup: what a name, given by its bytes, is in a scope of a table, and which scope holds it.
pub fn eqlog_lookup(image: &[u8], table: &[u32], scope: u32, name: &[u8]) -> u64
    ensures { Packs result (lookup_call image.now table.now scope name.now) }
{
    pack_looked(scopes::lookup(image, table, ScopeId(scope), name))
}

// Index: writes the name index of a table.
pub fn eqlog_index(image: &[u8], table: &[u32], index: &mut [u32]) -> u64
    ensures { LeavesIndex (index_call image.now table.now index.old) result index.new }
{
    pack_indexed(index::index(image, table, index))
}

// Lookup through the index: as Lookup, along the chain of the name in the table's index.
pub fn eqlog_lookup_indexed(
    image: &[u8],
    table: &[u32],
    index: &[u32],
    scope: u32,
    name: &[u8],
) -> u64
    ensures { Packs result (indexed_call image.now table.now index.now scope name.now) }
{
    pack_looked(index::lookup_indexed(image, table, index, ScopeId(scope), name))
}

// Errors: resolves, then writes the error rows. Mode 1 is plain; 0, the default, and 2 are strict.
pub fn eqlog_errors(image: &[u8], table: &mut [u32], rows: &mut [u32], mode: u32) -> u64
    ensures { LeavesRows (errors image.now table.old rows.old mode) result table.new rows.new }
{
    pack_rowed(bindings::check_bindings(image, table, rows, mode))
}

// Sorted: as Errors, with the rows by place.
pub fn eqlog_sorted(image: &[u8], table: &mut [u32], rows: &mut [u32], mode: u32) -> u64
    ensures { LeavesRows (sorted image.now table.old rows.old mode) result table.new rows.new }
{
    pack_rowed(sorted::sorted(image, table, rows, mode))
}

// Once: resolves, then looks for the first lone occurrence.
pub fn eqlog_once(image: &[u8], table: &mut [u32]) -> u64
    ensures { Leaves (CallsSpec.once image.now table.old) result table.new }
{
    pack_once(occurrences::check_occurrences(image, table))
}

// Occurrences: resolves, then lists every variable occurrence with its binding.
pub fn eqlog_occurrences(image: &[u8], table: &mut [u32], rows: &mut [u32]) -> u64
    ensures { LeavesRows (CallsSpec.occurrences image.now table.old rows.old) result table.new rows.new }
{
    pack_rowed(occurrences::occurrences(image, table, rows))
}

// Rename: resolves and lists as Occurrences does, then writes the image in which the occurrences of a binding have another name.
pub fn eqlog_rename(
    image: &[u8],
    table: &mut [u32],
    rows: &mut [u32],
    binding: u32,
    name: u32,
    output: &mut [u8],
) -> u64
    ensures { LeavesOutput (rename image.now table.old rows.old binding name output.old) result table.new rows.new output.new }
{
    pack_rowed(rename::rename(image, table, rows, NodeId(binding), name, output))
}

// Name: where the name's bytes stand in the image, start and length; 0 where there is none. (`as`: u64 has no From<usize>.)
pub fn eqlog_name(image: &[u8], name: u32) -> u64
    ensures { Places result (name_place image.now name) }
{
    match names::name_place(image, name) {
        Some(place) => place.start as u64 * 4294967296 + place.len as u64,
        None => 0,
    }
}
