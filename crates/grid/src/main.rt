// Prints docs/GRID.md: the grid of child kinds as reviewers read it, from the constant that the image test reads.
#![tactic(auto)]

ghost use Rattle.std.specs.Prelude.{◌<◌};

use ast::kind::Kind;
use std::io;
use tests::grid::{GRID, KINDS, admits};

// The text above the tables.
const TEXT: &str = "# The grid of child kinds

Where a parent's row names a child of a kind that does not stand here for it, the image is refused, as 9. The program crates/grid prints this page from the
constant that the image test reads, `tests::grid::GRID`, and `./test` compares the two. That each of the 1,681 entries is what document 01's table of kinds says is
proved by one computed check (tests/proofs Entries.checked).

## How to read a number

A row of the grid is a parent's kind, and a column a child's kind. Bit p of an entry is set exactly where the parent admits such a child at place p. Bit 0 counts 1,
bit 1 counts 2, bit 2 counts 4 and so on, up to bit 7 with 128; an entry is the sum of its bits. So 3 says places 0 and 1, and 128 says place 7 alone. A point
stands for 0: the parent has no such child.

In a kind that wraps an enum (Decl, Term, AppHead, TypeExpr, PredExpr, IfAtom, ThenAtom, Stmt) the place is the case number. In each other kind it is the position,
from 0, among the fields that hold children. A name is a number and no child; an optional child, a list and a branch's list of blocks are one field each, whose items
share its place.

## What each kind admits

| Number | Parent | Place and child |
|---|---|---|
";

// The name of the kind with a number.
fn print_name(rt: &impl Print, number: u32) -> io::Result<()> {
    if let Ok(kind) = Kind::try_from(number) {
        print!(rt; "{kind:?}")?;
    }
    Ok(())
}

// The children that a kind admits, by place.
fn print_admitted(rt: &impl Print, parent: Kind) -> io::Result<()> {
    let mut first = true;
    for place in 0..8u32 {
        for child in 0..KINDS as u32 {
            if admits(parent, place, child) {
                if !first {
                    print!(rt; ", ")?;
                }
                print!(rt; "{place} ")?;
                print_name(rt, child)?;
                first = false;
            }
        }
    }
    if first {
        print!(rt; "none")?;
    }
    Ok(())
}

// A line for each kind as a parent.
fn print_kinds(rt: &impl Print) -> io::Result<()> {
    for number in 0..KINDS as u32 {
        if let Ok(parent) = Kind::try_from(number) {
            print!(rt; "| {number} | {parent:?} | ")?;
            print_admitted(rt, parent)?;
            println!(rt; " |")?;
        }
    }
    Ok(())
}

// The numbers of a row of the grid.
fn print_entries(rt: &impl Print, parent: usize) -> io::Result<()>
    requires { parent < KINDS }
{
    for child in 0..KINDS {
        let entry = GRID[KINDS * parent + child];
        if entry == 0 {
            print!(rt; "   .")?;
        } else {
            print!(rt; "{entry:>4}")?;
        }
    }
    Ok(())
}

// The grid itself, with the kinds' numbers above it and on its left, and their names on its right.
fn print_grid(rt: &impl Print) -> io::Result<()> {
    print!(rt; "    ")?;
    for child in 0..KINDS {
        print!(rt; "{child:>4}")?;
    }
    println!(rt; "")?;
    for parent in 0..KINDS {
        print!(rt; "{parent:>4}")?;
        print_entries(rt, parent)?;
        print!(rt; "  ")?;
        print_name(rt, parent as u32)?;
        println!(rt; "")?;
    }
    Ok(())
}

fn run(rt: &impl Print) -> io::Result<()> {
    print!(rt; "{TEXT}")?;
    print_kinds(rt)?;
    println!(rt; "\n## The grid\n\n```text")?;
    print_grid(rt)?;
    println!(rt; "```")
}

fn main(rt: HostRuntime) -> io::Result<()> {
    run(&rt)
}
