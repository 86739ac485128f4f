// The names of an image: refusals 4 and 5, and with them the whole image test; Name; the number of a name.
#![tactic(auto)]

ghost use Rattle.std.specs.Prelude.{◌≡◌, ◌+◌, ◌-◌, ◌<◌, ◌↔◌, IfOk, IsSome, IsTrue};
ghost use Rattle.ast.specs.Image as ImageSpec;
ghost use Rattle.ast.specs.Tests as TestsSpec;
ghost use Rattle.ast.specs.Promises.{Rises};
ghost use Rattle.error.specs.Refusals.{refusal_of};
ghost use Rattle.names.specs.Promises.{hash, Chain, Met};
ghost use Rattle.names.specs.Name.{has_name, name_call, name_place, place_of, PartAt};
ghost use Rattle.names.specs.Number.{number_of, number_in};

use ast::SizedImage;
use error::Refusal;

fn name_end(image: &SizedImage, i: u32) -> u32
    requires { i < image.now.sizes.names }
    ensures { result ≡ ImageSpec.name_end image.now.image.now i }
{
    ast::word_in(
        image.image,
        16 + 8 * image.sizes.nodes as usize + 4 * image.sizes.operands as usize + 4 * i as usize,
    )
}

fn name_start(image: &SizedImage, i: u32) -> u32
    requires { i < image.now.sizes.names }
    ensures { result ≡ ImageSpec.name_start image.now.image.now i }
{
    if i == 0 {
        return 0;
    }
    name_end(image, i - 1)
}

// A part of the image: its start and its length.
#[derive(Clone, Copy, Debug, PartialEq, Eq)]
pub struct NamePlace {
    pub start: usize,
    pub len: usize,
}

// An image whose name ends have passed 4.
#[derive(Clone, Copy)]
struct NamedImage<'a> {
    sized: SizedImage<'a>,
    ghost rising_all: { Rises sized.image.now },
}

impl<'a> NamedImage<'a> {
    // Where the bytes of a name stand in the image.
    fn place(&self, i: u32) -> NamePlace
        requires { i < self.now.sized.sizes.names }
        ensures start { result.start ≡ ImageSpec.bytes_place self.now.sized.image.now + ImageSpec.name_start self.now.sized.image.now i }
        ensures len { result.len ≡ ImageSpec.name_end self.now.sized.image.now i - ImageSpec.name_start self.now.sized.image.now i }
    {
        let sizes = self.sized.sizes;
        let base = 16
            + 8 * sizes.nodes as usize
            + 4 * sizes.operands as usize
            + 4 * sizes.names as usize;
        let start = name_start(&self.sized, i);
        let end = name_end(&self.sized, i);
        NamePlace {
            start: base + start as usize,
            len: (end - start) as usize,
        }
    }

    // The bytes of a name, a part of the image.
    fn bytes(&self, i: u32) -> &'a [u8]
        requires { i < self.now.sized.sizes.names }
        ensures { result.now ≡ ImageSpec.name_bytes self.now.sized.image.now i }
    {
        let place = self.place(i);
        let end = place.start + place.len;
        &self.sized.image[place.start..end]
    }
}

// Refusal 4: the ends of the names rise, from above 0 to B. The loop does not stop at the first that does not, so that its machine code
// tests several at once.
fn test_ends(image: &SizedImage) -> Result<(), Refusal>
    ensures { refusal_of result ≡ TestsSpec.test_ends image.now.image.now }
{
    let mut start = 0u32;
    let mut rising = Ok(());
    for i in 0..image.sizes.names {
        let end = name_end(image, i);
        if end <= start {
            rising = Err(Refusal::NameEnds);
        }
        start = end;
    }
    if start != image.sizes.bytes {
        return Err(Refusal::NameEnds);
    }
    rising
}

// The bucket of a name.
fn bucket(name: &[u8]) -> usize
    ensures hashed { result ≡ hash 0 name.now }
    ensures few { result < 1024 }
{
    let mut h = 0u32;
    for &byte in name {
        h = (37 * h + byte as u32) % 1024;
    }
    h as usize
}

// A name before i of the chain from `first` on that has the bytes of i.
fn meets(names: &NamedImage, i: u32, name: &[u8], first: u32, next: &[u16; ast::NAMES]) -> bool
    requires { Chain names.now.sized.image.now i first next.now
        × (name.now ≡ ImageSpec.name_bytes names.now.sized.image.now i) }
    ensures { Met names.now.sized.image.now i first next.now result }
{
    // no range of numbers: it goes from link to link
    let mut link = first;
    while let Some(j) = link.checked_sub(1) {
        if names.bytes(j) == name {
            return true;
        }
        link = next[j as usize] as u32;
    }
    false
}

// Refusal 5: two names with equal bytes. Only names of one bucket are compared: heads and next chain them, in two arrays of fixed
// memory, since there is no heap. A link is one more than a name, or 0 for none.
fn test_twice(names: &NamedImage) -> Result<(), Refusal>
    ensures { refusal_of result ≡ TestsSpec.test_twice names.now.sized.image.now }
{
    let mut heads = [0u16; 1024];
    let mut next = [0u16; ast::NAMES];
    for i in 0..names.sized.sizes.names {
        let name = names.bytes(i);
        let h = bucket(name);
        let first = heads[h];
        if meets(names, i, name, first as u32, &next) {
            return Err(Refusal::EqualNames);
        }
        next[i as usize] = first;
        heads[h] = (i + 1) as u16;
    }
    Ok(())
}

// Refusals 4 and 5. Not inlined, so that its loops take no registers from that of the nodes.
#[inline(never)]
fn test_names(image: &SizedImage) -> Result<(), Refusal>
    ensures { refusal_of result ≡ TestsSpec.test_names image.now.image.now }
{
    test_ends(image)?;
    test_twice(&NamedImage { sized: *image })
}

// An image that 1 to 12 accept.
#[derive(Clone, Copy)]
pub struct AcceptedImage<'a> {
    pub sized: SizedImage<'a>,
    ghost accepted: { TestsSpec.verdict sized.image.now ≡ 0 },
}

// The image test: the first refusal of 1 to 12, or else the accepted image.
pub fn verdict(image: &[u8]) -> Result<AcceptedImage<'_>, Refusal>
    ensures code { refusal_of result ≡ TestsSpec.verdict image.now }
    ensures image { IfOk result (λ accepted. accepted.sized.image.now ≡ image.now) }
{
    let sized = tests::test_sizes(image)?;
    test_names(&sized)?;
    tests::test_nodes(&sized)?;
    Ok(AcceptedImage { sized })
}

// Where the bytes of a name stand in the image; none where Name is empty.
pub fn name_place(image: &[u8], number: u32) -> Option<NamePlace>
    ensures given { IsSome result ↔ IsTrue (has_name image.now number) }
    ensures place { place_of result ≡ name_place image.now number }
{
    let Ok(AcceptedImage { sized }) = verdict(image) else {
        return None;
    };
    if sized.sizes.names <= number {
        return None;
    }
    let named = NamedImage { sized };
    Some(named.place(number))
}

// Name: the name's own bytes, a part of the image; empty for a number not below S, or where the image is refused. An empty part and no
// Option, as document 01 gives Name an answer for all inputs; whether there is a name `name_place` tells.
pub fn name(image: &[u8], number: u32) -> &[u8]
    ensures bytes { result.now ≡ name_call image.now number }
    ensures part { PartAt image.entry (name_place image.now number) result }
{
    match name_place(image, number) {
        Some(place) => {
            let end = place.start + place.len;
            &image[place.start..end]
        }
        None => &image[..0],
    }
}

// The number of the name with these bytes.
pub fn number_of(image: &AcceptedImage, name: &[u8]) -> Option<u32>
    ensures { number_in result ≡ number_of image.now.sized.image.now name.now }
{
    let names = NamedImage { sized: image.sized };
    (0..names.sized.sizes.names).find(|&i| names.bytes(i) == name)
}
