// The image: its words, and the rows by node.
#![tactic(auto)]

ghost use Rattle.std.specs.Prelude.{◌≡◌, ◌+◌, ◌*◌, ◌-◌, ◌/◌, ◌<◌, ◌≤◌, length, get_or, set, eqb};
ghost use Rattle.ast.specs.Image as ImageSpec;
ghost use Rattle.ast.specs.KindNumbers.{kind_number};
ghost use Rattle.ast.specs.Promises.{Head, Within};
ghost use Rattle.ast.specs.Location.{location_of};

use crate::kind::Kind;

pub mod kind;
pub mod times;

// The little-endian word at a byte offset where it fits.
pub fn word_in(image: &[u8], offset: usize) -> u32
    requires { offset + 4 ≤ length image.now }
    ensures { result ≡ ImageSpec.word image.now offset }
{
    u32::from_le_bytes([
        image[offset],
        image[offset + 1],
        image[offset + 2],
        image[offset + 3],
    ])
}

// The little-endian word at a byte offset; 0 where it does not fit: with an Option each read of a row would have to take it apart,
// and none ends there.
pub fn word(image: &[u8], offset: usize) -> u32
    ensures { result ≡ ImageSpec.word image.now offset }
{
    let n = image.len();
    if n < 4 || n - 4 < offset {
        return 0;
    }
    word_in(image, offset)
}

// The four words at the front: N, C, S, B.
#[derive(Clone, Copy, Debug, PartialEq, Eq)]
pub struct Sizes {
    pub nodes: u32,
    pub operands: u32,
    pub names: u32,
    pub bytes: u32,
}

pub fn sizes_of(image: &[u8]) -> Sizes
    ensures { Head image.now result }
{
    Sizes {
        nodes: word(image, 0),
        operands: word(image, 4),
        names: word(image, 8),
        bytes: word(image, 12),
    }
}

// The largest image has so many nodes, so many names, and so many bytes.
pub const NODES: usize = 2048;

pub const NAMES: usize = 1024;

pub const MOST_BYTES: usize = 61456;

// A node by its number.
#[derive(Clone, Copy, Debug, PartialEq, Eq)]
pub struct NodeId(pub u32);

// The kind of a node, as the image's number: in lent bytes any may stand, and `Kind::try_from` says what it is.
pub fn kind_at(image: &[u8], node: NodeId) -> u32
    ensures { result ≡ ImageSpec.kind_at image.now node.0 }
{
    word(image, 16 + 4 * node.0 as usize)
}

// Whether the node is of the kind.
pub fn is_kind(image: &[u8], node: NodeId, kind: Kind) -> bool
    ensures { result ≡ eqb (ImageSpec.kind_at image.now node.0) (kind_number kind) }
{
    kind_at(image, node) == u32::from(kind)
}

// An image with its four sizes, which have passed 1 to 3: all its words are there.
#[derive(Clone, Copy, Debug)]
pub struct SizedImage<'a> {
    pub image: &'a [u8],
    pub sizes: Sizes,
    ghost within: { Within image.now sizes },
}

impl SizedImage<'_> {
    // The kind of a node that is there (as `kind_at`, any number), its start, and an operand word that is there.
    pub fn kind_at(&self, node: NodeId) -> u32
        requires { node.0 < self.now.sizes.nodes }
        ensures { result ≡ ImageSpec.kind_at self.now.image.now node.0 }
    {
        word_in(self.image, 16 + 4 * node.0 as usize)
    }

    pub fn start_at(&self, node: NodeId) -> u32
        requires { node.0 < self.now.sizes.nodes }
        ensures { result ≡ ImageSpec.start_at self.now.image.now node.0 }
    {
        word_in(
            self.image,
            16 + 4 * self.sizes.nodes as usize + 4 * node.0 as usize,
        )
    }

    pub fn op_at(&self, place: usize) -> u32
        requires { place < self.now.sizes.operands }
        ensures { result ≡ ImageSpec.op_at self.now.image.now place }
    {
        word_in(self.image, 16 + 8 * self.sizes.nodes as usize + 4 * place)
    }

    // Whether a node that is there is of the kind.
    pub fn is_kind(&self, node: NodeId, kind: Kind) -> bool
        requires { node.0 < self.now.sizes.nodes }
        ensures { result ≡ eqb (ImageSpec.kind_at self.now.image.now node.0) (kind_number kind) }
    {
        self.kind_at(node) == u32::from(kind)
    }
}

// N.
pub fn node_count(image: &[u8]) -> u32
    ensures { result ≡ ImageSpec.nodes image.now }
{
    word(image, 0)
}

// The place where a node's row starts.
pub fn row_start(image: &[u8], node: NodeId) -> u32
    ensures { result ≡ ImageSpec.start_at image.now node.0 }
{
    word(
        image,
        16 + 4 * node_count(image) as usize + 4 * node.0 as usize,
    )
}

// A place from which on no image has an operand word. A constant, so that the machine code of a read by number has no test of it.
const NOWHERE: usize = 2305843009213693952;

// The operand word at a place; 0 where it does not fit.
pub fn operand_at(image: &[u8], at: usize) -> u32
    ensures { result ≡ ImageSpec.op_at image.now at }
{
    if NOWHERE < at {
        return 0;
    }
    word(image, 16 + 8 * node_count(image) as usize + 4 * at)
}

// A row reader: the image that it reads from, and the place of its next operand: the form that the rules of the port name for it.
#[derive(Clone, Copy, Debug)]
pub struct RowReader<'a> {
    pub image: &'a [u8],
    pub at: usize,
}

pub fn read_from<'a>(image: &'a [u8], at: usize) -> RowReader<'a>
    ensures { (result.image ≡ image.entry) × (result.at ≡ at) }
{
    RowReader { image, at }
}

// The next operand of a reader.
pub fn next<'a>(r: RowReader<'a>) -> u32
    ensures { result ≡ ImageSpec.op_at r.entry.image.now r.entry.at }
{
    operand_at(r.image, r.at)
}

// The operand word at a place, read by a reader that starts there.
pub fn operand(image: &[u8], at: usize) -> u32
    ensures { result ≡ ImageSpec.op_at image.now at }
{
    next(read_from(image, at))
}

// Where a node's text begins and ends.
#[derive(Clone, Copy, Debug, PartialEq, Eq)]
pub struct Location(pub u32, pub u32);

// The two words that a node's row begins with.
pub fn loc(image: &[u8], node: NodeId) -> Location
    ensures { result ≡ location_of image.now node.0 }
{
    let start = row_start(image, node) as usize;
    Location(operand(image, start), operand(image, start + 1))
}

// The j-th word of a node's row after its two location words.
pub fn field(image: &[u8], node: NodeId, j: usize) -> u32
    ensures { result ≡ ImageSpec.field image.now node.0 j }
{
    if NOWHERE < j {
        return 0;
    }
    operand(image, row_start(image, node) as usize + 2 + j)
}

// The name number of a node that has a name; of an optional one, the word less 1.
pub fn name_of(image: &[u8], node: NodeId) -> u32
    ensures { result ≡ ImageSpec.name_of image.now node.0 }
{
    let word = field(image, node, 0);
    if is_kind(image, node, Kind::RuleDecl) || is_kind(image, node, Kind::ArgDecl) {
        return word.saturating_sub(1);
    }
    word
}
