// The name index of a table: the symbols of each name, and lookup through them (document 02, S-3).
#![tactic(auto)]

ghost use Rattle.std.specs.Prelude.{◌≡◌, false, ◌+◌, ◌<◌, IfOk, get_or, length, replicate};
ghost use Rattle.std.proofs.Math.Option.{some};
ghost use Rattle.ast.specs.Image as ImageSpec;
ghost use Rattle.ast.specs.Tests.{same};
ghost use Rattle.error.specs.Refusals.{refusal_of};
ghost use Rattle.table.specs.Table.{found as found_in};
ghost use Rattle.table.specs.Values.{found_at, found_of};
ghost use Rattle.sound.specs.Sound.{table_in};
ghost use Rattle.scopes.specs.Answers.{looked_answer};
ghost use Rattle.scopes.specs.Lookup as LookupSpec;
ghost use Rattle.index.specs.Index as IndexSpec;
ghost use Rattle.index.specs.Index.{index_length, index_words, index_answer};
ghost use Rattle.index.specs.Promises as PromisesSpec;
ghost use Rattle.index.specs.Promises.{Room, Indexed, Flagged};

use error::Refusal;
use names::AcceptedImage;
use scopes::Looked;
use table::{Found, ScopeId};

// The word for no row: it ends a chain and fills the unused places. C reads it so, since the words have no room for an Option.
pub const NO_ROW: u32 = 4294967295;

// The index of the largest image has so many words.
pub const MOST_WORDS: usize = ast::NAMES + ast::NODES;

// Index: writes the index of a table into the lent words, and hands back how many symbol rows stand in its chains.
pub fn index(image: &[u8], table: &[u32], index: &mut [u32]) -> Result<u32, Refusal>
    ensures { IndexSpec.index_call image.now table.now index.old ≡ record { answer = index_answer result; index = index.new } }
{
    test_index(image, table, index)?;
    fill(image, table, &mut index[..words_for(image)]);
    Ok(table::get(table, table::SYMBOLS_PLACE))
}

// Lookup through the index: the symbol of a name given by its bytes, and the scope that holds it.
pub fn lookup_indexed(
    image: &[u8],
    table: &[u32],
    index: &[u32],
    scope: ScopeId,
    name: &[u8],
) -> Result<Option<Looked>, Refusal>
    ensures { looked_answer result ≡ IndexSpec.indexed_call image.now table.now index.now scope.0 name.now }
{
    let accepted = test_indexed(image, table, index, scope)?;
    match names::number_of(&accepted, name) {
        Some(number) => Ok(lookup_number(image, table, index, scope, number)),
        None => Ok(None),
    }
}

// The refusals of the call that makes the index: 1 to 13, 16, 18.
fn test_index(image: &[u8], table: &[u32], index: &[u32]) -> Result<(), Refusal>
    ensures { refusal_of result ≡ IndexSpec.test_index image.now table.now index.now }
{
    scopes::test_table(image, table)?;
    sound::test_sound(image, table)?;
    if index.len() < words_for(image) {
        return Err(Refusal::WrongIndex);
    }
    Ok(())
}

// The refusals of lookup through the index: 1 to 13, 16, 17, 18.
fn test_indexed<'a>(
    image: &'a [u8],
    table: &[u32],
    index: &[u32],
    scope: ScopeId,
) -> Result<AcceptedImage<'a>, Refusal>
    ensures refusal { refusal_of result ≡ IndexSpec.test_indexed image.now table.now index.now scope.0 }
    ensures image { IfOk result (λ accepted. accepted.sized.image.now ≡ image.now) }
{
    let accepted = scopes::test_lookup(image, table, scope)?;
    let words = words_for(image);
    if index.len() < words || !is_index(image, table, &index[..words]) {
        return Err(Refusal::WrongIndex);
    }
    Ok(accepted)
}

// Whether these words are the index of the table, which is made anew beside them, in fixed memory, since there is no heap.
fn is_index(image: &[u8], table: &[u32], words: &[u32]) -> bool
    requires { Room image.now table.now words.now }
    ensures { result ≡ same words.now (index_words image.now table.now) }
{
    let mut array = [NO_ROW; MOST_WORDS];
    let own = &mut array[..words.len()];
    fill(image, table, own);
    words == own
}

// S.
fn name_count(image: &[u8]) -> u32
    ensures { result ≡ ImageSpec.names image.now }
{
    ast::sizes_of(image).names
}

// How many words the index of an image's table needs.
pub fn words_for(image: &[u8]) -> usize
    ensures { result ≡ index_length image.now }
{
    name_count(image) as usize + ast::node_count(image) as usize
}

// Where the row after a row, in its chain, stands.
fn next_place(image: &[u8], row: u32) -> usize
    ensures { result ≡ ImageSpec.names image.now + row }
{
    name_count(image) as usize + row as usize
}

// The index of a sound table, into as many words as it has. From the last row to the first, so that chains go by insertion.
fn fill(image: &[u8], table: &[u32], words: &mut [u32])
    requires { Room image.now table.now words.old }
    ensures { words.new ≡ index_words image.now table.now }
{
    words.fill(NO_ROW);
    for row in (0..table::get(table, table::SYMBOLS_PLACE)).rev() {
        put_in_front(image, table, words, row);
    }
}

// Puts a row in front of the chain of its name.
fn put_in_front(image: &[u8], table: &[u32], words: &mut [u32], row: u32)
    ensures { words.new ≡ PromisesSpec.in_front image.now table.now row words.old }
{
    let name = ast::name_of(image, table::symbol_node(image, table, row)) as usize;
    let next = table::get(words, name);
    table::put(words, next_place(image, row), next);
    table::put(words, name, row);
}

// The symbol of a name number, from a scope on upwards.
fn lookup_number(
    image: &[u8],
    table: &[u32],
    index: &[u32],
    scope: ScopeId,
    name: u32,
) -> Option<Looked>
    requires { Indexed image.now table.now index.now scope.0 name }
    ensures { looked_answer (Ok result) ≡ LookupSpec.symbol_answer image.now (LookupSpec.found_by image.now table.now scope.0 (some name)) }
{
    let found = nearest(image, table, index, scope, name)?;
    scopes::looked_up(image, found)
}

// Along the chain of a name: the first symbol in the scope, or in the nearest scope above it that has one.
fn nearest(image: &[u8], table: &[u32], index: &[u32], scope: ScopeId, name: u32) -> Option<Found>
    requires { Indexed image.now table.now index.now scope.0 name }
    ensures { found_of result ≡ found_in image.now (table_in image.now table.now) scope.0 name }
{
    let mut over = [false; ast::NODES];
    flag(image, table, &mut over, scope);
    let mut best = None;
    let mut row = table::get(index, name as usize);
    while row != NO_ROW {
        best = better(&over, best, table::symbol_at(image, table, row));
        row = table::get(index, next_place(image, row));
    }
    best
}

// Flags a scope and those above it.
fn flag(image: &[u8], table: &[u32], flags: &mut [bool], scope: ScopeId)
    requires { (flags.old ≡ replicate 2048 false) × (scope.0 < 2048) }
    ensures { Flagged image.now table.now flags.new scope.0 }
{
    let mut at = scope;
    loop {
        flags[at.0 as usize] = true;
        let parent = table::parent_of(image, table, at);
        if at.0 <= parent.0 {
            return;
        }
        at = parent;
    }
}

// The better of the best so far and a symbol: the scopes that are flagged stand one above the other, and the greatest is the nearest.
fn better(flags: &[bool], best: Option<Found>, symbol: Found) -> Option<Found>
    requires { symbol.scope.0 < length flags.now }
    ensures { found_of result ≡ PromisesSpec.better (get_or flags.now symbol.scope.0 false) (found_of best) (found_at symbol) }
{
    if !flags[symbol.scope.0 as usize] {
        return best;
    }
    match best {
        Some(found) if symbol.scope.0 <= found.scope.0 => best,
        _ => Some(symbol),
    }
}
