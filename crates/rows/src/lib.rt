// Rows that a check appends to lent words: a count, then two parallel arrays of N words. Nothing prints or compares them, so they
// derive no more than they need.
#![tactic(auto)]

ghost use Rattle.std.specs.Prelude.{◌≡◌, [], ◌∷◌, ◌+◌, ◌<◌, ◌≤◌, ◌^◌, length, get_or, set};
ghost use Rattle.std.specs.Iterator.{YieldsFirstBy, item_count};
ghost use Rattle.rows.specs.Rows.{row, rows_length, cleared, Appends, Starts, Ends, Shows, shown, pair_row, pairs_left};

// The first n words set to 0.
pub fn clear(words: &mut [u32], n: usize)
    requires { n ≤ length words.old }
    ensures { words.new ≡ cleared n words.old }
{
    words[..n].fill(0);
}

// How many words the rows of an image of n nodes need.
pub fn words_for(n: u32) -> usize
    ensures { result ≡ rows_length n }
{
    1 + 2 * n as usize
}

// The rows of the largest image need so many words.
pub const MOST_WORDS: usize = 1 + 2 * ast::NODES;

// Rows that a check appends to lent words: of an image of `nodes` nodes, `count` so far. A count and two arrays of words, since C
// lends them so.
#[derive(Drop)]
pub struct Rows<'a> {
    pub words: &'a mut [u32],
    pub nodes: u32,
    pub count: u32,
}

impl<'a> Rows<'a> {
    // No row yet, in words as they are.
    pub fn empty(words: &'a mut [u32], nodes: u32) -> Rows<'a>
        ensures { Starts words.entry.ghost_name nodes words.old result }
    {
        Rows {
            words,
            nodes,
            count: 0,
        }
    }

    // Before the first row: all words of the rows 0.
    pub fn begin(words: &'a mut [u32], nodes: u32) -> Rows<'a>
        requires { rows_length nodes ≤ length words.old }
        ensures { Starts words.entry.ghost_name nodes (cleared (rows_length nodes) words.old) result }
    {
        clear(words, words_for(nodes));
        Rows::empty(words, nodes)
    }

    // One row more.
    pub fn put(&mut self, left: u32, right: u32)
        requires { self.old.count + 1 < 2 ^ 32 }
        ensures { Appends (row left right ∷ []) self.old self.new }
    {
        let count = self.count as usize;
        table::put(self.words, 1 + count, left);
        table::put(self.words, 1 + self.nodes as usize + count, right);
        self.count += 1;
    }

    // After the last row: the count in front, which is handed back.
    pub fn finish(self) -> u32
        ensures { Ends self.entry result self.exit.0.now }
    {
        let Rows { words, count, .. } = self;
        table::put(words, 0, count);
        count
    }

    // The rows so far, to be read.
    pub fn written(&self) -> Written<'_>
        ensures { Shows self.entry.now result }
    {
        Written {
            words: self.words,
            nodes: self.nodes,
            count: self.count,
        }
    }
}

// Rows that words hold, to be read: `count` of them, of an image of `nodes` nodes.
#[derive(Clone, Copy, Drop)]
pub struct Written<'a> {
    pub words: &'a [u32],
    pub nodes: u32,
    pub count: u32,
}

impl<'a> Written<'a> {
    // The first word of row i.
    pub fn left(self, i: u32) -> u32
        ensures { result ≡ get_or self.entry.words.now (1 + i) 0 }
    {
        table::get(self.words, 1 + i as usize)
    }

    // Its second word.
    pub fn right(self, i: u32) -> u32
        ensures { result ≡ get_or self.entry.words.now (1 + self.entry.nodes + i) 0 }
    {
        table::get(self.words, 1 + self.nodes as usize + i as usize)
    }

    // The rows one after another, each as its two words.
    pub fn pairs(self) -> Pairs<'a>
        ensures { pairs_left result ≡ shown self.entry }
    {
        Pairs {
            rows: self,
            next: 0,
        }
    }
}

// The rows that are left to read, from row `next` on.
#[derive(Drop)]
pub struct Pairs<'a> {
    pub rows: Written<'a>,
    pub next: u32,
}

impl<'a> Iterator for Pairs<'a> {
    type Item = (u32, u32);

    ghost next_gives = { YieldsFirstBy pair_row pairs_left };

    ghost remaining = { item_count pairs_left };

    #[inline(always)]
    fn next(&mut self) -> Option<(u32, u32)> {
        if self.rows.count <= self.next {
            return None;
        }
        let i = self.next;
        self.next += 1;
        Some((self.rows.left(i), self.rows.right(i)))
    }
}
