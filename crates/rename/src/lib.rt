// Rename: the image in which the occurrences of one variable have another name (document 02, S-7).
#![tactic(auto)]

ghost use Rattle.std.specs.Prelude.{◌≡◌, ◌+◌, ◌<◌, ◌≤◌, ◌^◌, length, set};
ghost use Rattle.ast.specs.declared.TheConstants.{MOST_BYTES};
ghost use Rattle.error.specs.Refusals.{refusal_of};
ghost use Rattle.rows.specs.Rows.{shown};
ghost use Rattle.scopes.specs.Answers.{rowed_answer};
ghost use Rattle.rename.specs.Rename as RenameSpec;
ghost use Rattle.rename.specs.Rename.{set_word, set_words, ident_of, name_offset, offsets, is_binding, same_rows, occurrence_list, test_rename, out_after};

use ast::NodeId;
use error::{Refusal, Unresolved};
use rows::Written;

// Rename: resolves, lists the occurrences, and writes the image in which those of a binding have another name. Its length is handed
// back, which is that of the image.
pub fn rename(
    image: &[u8],
    table: &mut [u32],
    rows: &mut [u32],
    binding: NodeId,
    name: u32,
    output: &mut [u8],
) -> Result<u32, Unresolved>
    ensures { RenameSpec.rename image.now table.old rows.old binding.0 name output.old ≡ record { answer = rowed_answer result; table = table.new; rows = rows.new; out = output.new } }
{
    if output.len() < image.len() {
        scopes::test_rows(image, table, rows)?;
        return Err(Unresolved::Refused(Refusal::ShortRows));
    }
    let count = occurrences::occurrences(image, table, rows)?;
    let list = Written {
        words: rows,
        nodes: ast::node_count(image),
        count,
    };
    write_renamed(image, list, binding, name, output)?;
    Ok(image.len() as u32)
}

// The new image in front of the output, unless it is refused. It is made in fixed memory, since there is no heap and a refusal alters
// nothing.
fn write_renamed(
    image: &[u8],
    list: Written,
    binding: NodeId,
    name: u32,
    output: &mut [u8],
) -> Result<(), Refusal>
    requires { (length image.now ≤ MOST_BYTES) × (length image.now ≤ length output.old) }
    ensures refusal { refusal_of result ≡ test_rename image.now (shown list.entry) binding.0 name }
    ensures output { output.new ≡ out_after image.now (shown list.entry) binding.0 name output.old (refusal_of result) }
{
    let mut array = [0; ast::MOST_BYTES];
    let new = &mut array[..image.len()];
    new.copy_from_slice(image);
    put_names(image, list, binding, name, new);
    test_rename(image, list, binding, name, new)?;
    output[..image.len()].copy_from_slice(new);
    Ok(())
}

// 19 to 21, of an image and the new one.
fn test_rename(
    image: &[u8],
    list: Written,
    binding: NodeId,
    name: u32,
    new: &[u8],
) -> Result<(), Refusal>
    requires { new.now ≡ RenameSpec.renamed image.now (shown list) binding.0 name }
    ensures { refusal_of result ≡ test_rename image.now (shown list.entry) binding.0 name }
{
    if !is_binding(list, binding) {
        return Err(Refusal::UnknownBinding);
    }
    if ast::sizes_of(image).names <= name {
        return Err(Refusal::UnknownName);
    }
    if !lists(new, list) {
        return Err(Refusal::OtherList);
    }
    Ok(())
}

// Whether some row has the binding.
fn is_binding(list: Written, binding: NodeId) -> bool
    ensures { result ≡ is_binding binding.0 (shown list.entry) }
{
    list.pairs().any(|(_, found)| found == binding.0)
}

// Whether the occurrence list of an image is these rows. An image that Occurrences gives no list for would pass for one without rows; there is
// none among those that are asked for (crate renaming).
fn lists(image: &[u8], list: Written) -> bool
    ensures { result ≡ same_rows (occurrence_list image.now) (shown list.entry) }
{
    let mut table = [0; table::MOST_WORDS];
    let mut words = [0; rows::MOST_WORDS];
    let count = occurrences::occurrences(image, &mut table, &mut words).unwrap_or(0);
    let own = Written {
        words: &words,
        nodes: ast::node_count(image),
        count,
    };
    same_rows(own, list)
}

// Whether they are equal row by row.
fn same_rows(own: Written, list: Written) -> bool
    ensures { result ≡ same_rows (shown own.entry) (shown list.entry) }
{
    own.count == list.count
        && (0..own.count).all(|i| own.left(i) == list.left(i) && own.right(i) == list.right(i))
}

// The name words under the occurrences of the binding, in the bytes of the new image.
fn put_names(image: &[u8], list: Written, binding: NodeId, name: u32, new: &mut [u8])
    ensures { new.new ≡ set_words (offsets image.now binding.0 (shown list.entry)) name new.old }
{
    for (node, found) in list.pairs() {
        if found == binding.0 {
            put_word(new, name_offset(image, ident_of(image, NodeId(node))), name);
        }
    }
}

// The IdentTerm under an occurrence.
fn ident_of(image: &[u8], node: NodeId) -> NodeId
    ensures { result.0 ≡ ident_of image.now node.0 }
{
    NodeId(ast::field(image, node, 1))
}

// Where the name word of an IdentTerm stands among the bytes.
fn name_offset(image: &[u8], ident: NodeId) -> usize
    ensures is { result ≡ name_offset image.now ident.0 }
    ensures few { result + 4 < 2 ^ 64 }
{
    16 + 8 * ast::node_count(image) as usize + 4 * (ast::row_start(image, ident) as usize + 2)
}

// The little-endian word at an offset.
#[tactic(auto, unfolding(crate::specs::Rename::set_word))]
fn put_word(bytes: &mut [u8], offset: usize, value: u32)
    requires { offset + 4 < 2 ^ 64 }
    ensures { bytes.new ≡ set_word bytes.old offset value }
{
    put_byte(bytes, offset, (value % 256) as u8);
    put_byte(bytes, offset + 1, (value / 256 % 256) as u8);
    put_byte(bytes, offset + 2, (value / 65536 % 256) as u8);
    put_byte(bytes, offset + 3, (value / 16777216) as u8);
}

// One byte; nothing where it has no place.
fn put_byte(bytes: &mut [u8], offset: usize, byte: u8)
    ensures { bytes.new ≡ set bytes.old offset byte }
{
    if offset < bytes.len() {
        bytes[offset] = byte;
    }
}
