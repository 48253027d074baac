//! One line of a certificate, written.

ghost use Rattle.std.specs.Prelude.{◌≡◌, ◌++◌, ◌∷◌, ◌<◌, ◌^◌, [], None, true, OnOk, IfSome, codes};
ghost use Rattle.std.specs.Fmt.{decimal, signed_decimal};
ghost use Rattle.cert_format.specs.Lines.{spelled_line};
ghost use Rattle.cert_format.specs.Spelling.{count_words, choices_words, alternative_words, price_words, seen_word, fixing_words, extra_word, undone_words, node_words, mark_name, stage_words, is_undone, SeenFits, IsLong, PriceFits, FixingFits, NodeFits, FloorFits};

use crate::cert::{Floor, Mark};
use choice_problem::{Node, Price};
use cost_fixing::Fixing;
use slot_text::{Memory, put_number};
use std::alloc::Global;

// A word, and a blank after it.
fn put_word(out: &mut Vec<u8>, word: &[u8]) -> Result<(), Memory>
    ensures { OnOk result (out.new.items ≡ out.old.items ++ (word.now ++ 32 ∷ [])) }
{
    out.extend_from_slice(word)?;
    out.push(b' ')?;
    Ok(())
}

// The last word of a line.
fn put_last(out: &mut Vec<u8>, word: &[u8]) -> Result<(), Memory>
    ensures { OnOk result (out.new.items ≡ out.old.items ++ (word.now ++ 10 ∷ [])) }
{
    out.extend_from_slice(word)?;
    out.push(b'\n')?;
    Ok(())
}

// A number, and a blank after it.
fn put_number_word(alloc: Global, out: &mut Vec<u8>, number: u64) -> Result<(), Memory>
    ensures text { OnOk result (out.new.items ≡ out.old.items ++ (decimal number ++ 32 ∷ [])) }
    ensures range { number < 2 ^ 64 }
{
    put_number(alloc, out, number)?;
    out.push(b' ')?;
    Ok(())
}

// A number at the end of a line.
fn put_last_number(alloc: Global, out: &mut Vec<u8>, number: u64) -> Result<(), Memory>
    ensures text { OnOk result (out.new.items ≡ out.old.items ++ (decimal number ++ 10 ∷ [])) }
    ensures range { number < 2 ^ 64 }
{
    put_number(alloc, out, number)?;
    out.push(b'\n')?;
    Ok(())
}

// A number of 32 bits, and a blank after it.
fn put_small_word(alloc: Global, out: &mut Vec<u8>, number: u32) -> Result<(), Memory>
    ensures text { OnOk result (out.new.items ≡ out.old.items ++ (decimal number ++ 32 ∷ [])) }
    ensures range { number < 2 ^ 32 }
{
    put_number_word(alloc, out, u64::from(number))
}

// A number of 32 bits at the end of a line.
fn put_last_small(alloc: Global, out: &mut Vec<u8>, number: u32) -> Result<(), Memory>
    ensures text { OnOk result (out.new.items ≡ out.old.items ++ (decimal number ++ 10 ∷ [])) }
    ensures range { number < 2 ^ 32 }
{
    put_last_number(alloc, out, u64::from(number))
}

// A number with a sign if it is below 0, at the end of a line.
#[tactic(auto, using(crate::proofs::RangeLemmas::long_of))]
fn put_last_signed(alloc: Global, out: &mut Vec<u8>, number: i64) -> Result<(), Memory>
    ensures text { OnOk result
        (out.new.items ≡ out.old.items ++ (signed_decimal number ++ 10 ∷ [])) }
    ensures range { IsLong number }
{
    let text = number.to_string(alloc)?;
    put_last(out, text.as_bytes())
}

/// A word and a number.
#[tactic(auto, unfolding(crate::specs::Lines::spelled_line))]
pub fn put_count(alloc: Global, out: &mut Vec<u8>, tag: &[u8], number: u64) -> Result<(), Memory>
    ensures text { OnOk result
        (out.new.items ≡ out.old.items ++ spelled_line (count_words tag.now number)) }
    ensures range { OnOk result (number < 2 ^ 64) }
{
    put_word(out, tag)?;
    put_last_number(alloc, out, number)
}

/// The alternative that the unit takes.
#[tactic(auto, unfolding(crate::specs::Lines::spelled_line))]
pub fn put_alternative(alloc: Global, out: &mut Vec<u8>, unit: u64, alt: u32) -> Result<(), Memory>
    ensures text { OnOk result
        (out.new.items ≡ out.old.items ++ spelled_line (alternative_words unit alt)) }
    ensures range { OnOk result (alt < 2 ^ 32) }
{
    put_word(out, b"C")?;
    put_number_word(alloc, out, unit)?;
    put_last_small(alloc, out, alt)
}

/// One price of a vector.
#[tactic(auto, unfolding(crate::specs::Lines::spelled_line))]
pub fn put_price(alloc: Global, out: &mut Vec<u8>, price: Price) -> Result<(), Memory>
    ensures text { OnOk result (out.new.items ≡ out.old.items ++ spelled_line (price_words price)) }
    ensures range { OnOk result (PriceFits price) }
{
    put_word(out, b"P")?;
    put_small_word(alloc, out, price.resource)?;
    put_last_signed(alloc, out, price.price)
}

/// The vector, the scale and the cost of a fixing.
#[tactic(auto, unfolding(crate::specs::Lines::spelled_line))]
pub fn put_fixing(alloc: Global, out: &mut Vec<u8>, fixing: Fixing) -> Result<(), Memory>
    ensures text { OnOk result
        (out.new.items ≡ out.old.items ++ spelled_line (fixing_words fixing)) }
    ensures range { OnOk result (FixingFits fixing) }
{
    put_word(out, b"FIX")?;
    put_small_word(alloc, out, fixing.vector)?;
    put_number_word(alloc, out, fixing.scale)?;
    put_last_number(alloc, out, fixing.cost)
}

// A seen cost, or `-` for none, at the end of a line.
fn put_seen(alloc: Global, out: &mut Vec<u8>, seen: Option<u64>) -> Result<(), Memory>
    ensures text { OnOk result (out.new.items ≡ out.old.items ++ (seen_word seen ++ 10 ∷ [])) }
    ensures range { SeenFits seen }
{
    match seen {
        None => put_last(out, b"-"),
        Some(number) => put_last_number(alloc, out, number),
    }
}

/// One node, with its floor if it has one.
#[tactic(auto, unfolding(crate::specs::Lines::spelled_line))]
pub fn put_node(
    alloc: Global,
    out: &mut Vec<u8>,
    node: Node,
    floor: Option<Floor>,
) -> Result<(), Memory>
    ensures text { OnOk result
        (out.new.items ≡ out.old.items ++ spelled_line (node_words node floor)) }
    ensures range { OnOk result (NodeFits node) }
    ensures floor { OnOk result (is_undone node ≡ true → IfSome floor FloorFits) }
{
    match node {
        Node::Split { unit, cut, seen } => {
            put_word(out, b"S")?;
            put_small_word(alloc, out, unit)?;
            put_small_word(alloc, out, cut)?;
            put_seen(alloc, out, seen)
        }
        Node::Leaf {
            vector,
            scale,
            seen,
        } => {
            put_word(out, b"L")?;
            put_small_word(alloc, out, vector)?;
            put_number_word(alloc, out, scale)?;
            put_seen(alloc, out, seen)
        }
        Node::Over { resource } => {
            put_word(out, b"O")?;
            put_last_small(alloc, out, resource)
        }
        Node::Undone => put_undone(alloc, out, floor),
    }
}

// An undone node.
#[tactic(auto, unfolding(crate::specs::Lines::spelled_line))]
fn put_undone(alloc: Global, out: &mut Vec<u8>, floor: Option<Floor>) -> Result<(), Memory>
    ensures text { OnOk result
        (out.new.items ≡ out.old.items ++ spelled_line (undone_words floor)) }
    ensures range { OnOk result (IfSome floor FloorFits) }
{
    match floor {
        None => put_last(out, b"U"),
        Some(floor) => {
            put_word(out, b"U")?;
            put_small_word(alloc, out, floor.vector)?;
            put_last_number(alloc, out, floor.scale)
        }
    }
}

/// The number of a stage and its mark.
#[tactic(auto, unfolding(crate::specs::Lines::spelled_line))]
pub fn put_mark(alloc: Global, out: &mut Vec<u8>, stage: u64, mark: Mark) -> Result<(), Memory>
    ensures { OnOk result (out.new.items ≡ out.old.items ++ spelled_line (stage_words stage mark)) }
{
    put_word(out, b"STAGE")?;
    put_number_word(alloc, out, stage)?;
    match mark {
        Mark::Optimal => put_last(out, b"OPTIMAL"),
        Mark::Infeasible => put_last(out, b"INFEASIBLE"),
        Mark::Unsettled => put_last(out, b"OPEN"),
        Mark::NotTried => {
            put_word(out, b"NOT")?;
            put_last(out, b"TRIED")
        }
    }
}

/// No allotment.
#[tactic(auto, unfolding(crate::specs::Lines::spelled_line))]
pub fn put_none(out: &mut Vec<u8>) -> Result<(), Memory>
    ensures { OnOk result (out.new.items ≡ out.old.items ++ spelled_line (choices_words None)) }
{
    put_word(out, b"CHOICES")?;
    put_last(out, b"NONE")
}

/// The last line.
#[tactic(auto, unfolding(crate::specs::Lines::spelled_line))]
pub fn put_end(out: &mut Vec<u8>) -> Result<(), Memory>
    ensures { OnOk result (out.new.items ≡ out.old.items ++ spelled_line (codes "END" ∷ [])) }
{
    put_last(out, b"END")
}

/// The first line of one more stage, which says whether it has a fixing.
#[tactic(auto, unfolding(crate::specs::Lines::spelled_line))]
pub fn put_extra(out: &mut Vec<u8>, fixing: &Option<Fixing>) -> Result<(), Memory>
    ensures { OnOk result (out.new.items ≡ out.old.items
        ++ spelled_line (codes "EXTRA" ∷ extra_word fixing.now ∷ [])) }
{
    put_word(out, b"EXTRA")?;
    match fixing {
        None => put_last(out, b"1"),
        Some(_) => put_last(out, b"2"),
    }
}
