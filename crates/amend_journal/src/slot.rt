//! The bytes of a slot: how a pair is laid out in them, and which pair they spell.

ghost use Rattle.std.specs.Prelude.{◌≡◌, ◌↔◌, ◌≤◌, ◌++◌, ◌∷◌, [], ℕ, List, length, take};
ghost use Rattle.std.specs.Prelude.{slice_index, EachIndex, IfOk, IfSome, IsTrue, Some};
ghost use Rattle.std.specs.Option.{option_copied};
ghost use Rattle.amend_journal.specs.Format.{filled, IsFit};
ghost use Rattle.amend_journal.specs.Durable.{IsReady};
ghost use Rattle.amend_journal.specs.Private.{SpellsPair};
ghost use Rattle.amend_journal.specs.declared.asked.Asked.{Asked as AskedValue};

use crate::asked::Asked;
use scr_reader::laws::printed_items;
use scr_reader::{print_item, read_item};
use season_days::Season;
use slot_text::Memory;
use std::alloc::Global;
use std::marker::Model;

/// How many bytes of a slot there are for a text, behind the gate, the caller and the length.
const TEXT_ROOM: usize = 253;

/// How many bytes a slot has.
pub(crate) const SLOT_SIZE: usize = 256;

/// A pair laid out for a slot: its bytes behind the gate, and the closed gate of the next slot.
#[derive(Drop)]
pub struct Slot {
    bytes: Vec<u8>,
}

impl Model for Slot {
    ghost use Rattle.std.specs.Prelude.{◌≡◌, List, ℕ, length};

    ghost Value = { List ℕ };

    ghost view = { λ s. s.bytes.items };

    ghost invariant = { λ s. length s.bytes.items ≡ 256 };
}

impl Slot {
    /// The slot of a pair. It takes memory for the text of what is asked, and for the slot.
    #[tactic(auto, unfolding(crate::specs::Format::slot_bytes))]
    pub(crate) fn of(alloc: Global, season: &Season, asked: &Asked) -> Result<Slot, Memory>
        requires { IsFit season.now asked.now }
        ensures { IfOk result (IsReady season.now asked.now) }
    {
        printed_items();
        let mut text = Vec::new(alloc);
        print_item(alloc, &mut text, season, &asked.ask)?;
        let bytes = laid_out(alloc, asked.caller, &text)?;
        Ok(Slot { bytes })
    }

    pub(crate) fn bytes(&self) -> &[u8]
        ensures bytes { result.now ≡ self.now }
        ensures whole { length self.now ≡ SLOT_SIZE }
    {
        &self.bytes
    }
}

/// The caller, the text's length, the text, and zeros behind it.
fn laid_out(alloc: Global, caller: u8, text: &[u8]) -> Result<Vec<u8>, Memory>
    requires { length text.now ≤ TEXT_ROOM }
    ensures bytes { IfOk result (λ bytes. bytes.items ≡ filled caller text.now ++ 0 ∷ []) }
    ensures whole { IfOk result (λ bytes. length bytes.items ≡ SLOT_SIZE) }
{
    let mut bytes = Vec::with_capacity(alloc, SLOT_SIZE)?;
    bytes.push(caller)?;
    bytes.push(text.len() as u8)?;
    bytes.extend_from_slice(text)?;
    bytes.resize(SLOT_SIZE, 0)?;
    Ok(bytes)
}

/// The pair that a slot spells in its 255 bytes behind the gate; the next gate follows them. None
/// for all other bytes, also for another spelling of what is asked, and where a byte behind the
/// text is not zero. It takes memory for the text of what is asked.
#[tactic(auto, unfolding(crate::specs::Format::slot_bytes))]
pub(crate) fn pair_in(alloc: Global, season: &Season, bytes: &[u8]) -> Result<Option<Asked>, Memory>
    requires { length bytes.now ≡ SLOT_SIZE }
    ensures found { IfOk result (λ pair.
        IfSome pair (SpellsPair season.now (take 255 bytes.now))) }
    ensures only { (asked : AskedValue) → SpellsPair season.now (take 255 bytes.now) asked →
        IfOk result (λ pair. pair ≡ Some asked) }
{
    printed_items();
    let (slot, _next_gate) = bytes.split_at(255);
    let Some(text) = text_in(slot) else {
        return Ok(None);
    };
    match read_item(alloc, season, text)? {
        Some(ask) => Ok(Some(Asked {
            caller: slot[0],
            ask,
        })),
        None => Ok(None),
    }
}

/// The text of a slot, where nothing but zeros stands behind it.
fn text_in(slot: &[u8]) -> Option<&[u8]>
    requires { length slot.now ≡ 255 }
    ensures found { IfSome result (λ text.
        slot.now ≡ filled (slice_index slot.now 0) text.now) }
    ensures only { (caller : ℕ) (text : List ℕ) → length text ≤ TEXT_ROOM →
        slot.now ≡ filled caller text → option_copied result ≡ Some text }
{
    let size = usize::from(slot[1]);
    if size > TEXT_ROOM {
        return None;
    }
    let (text, rest) = slot[2..].split_at(size);
    if are_zeros(rest) { Some(text) } else { None }
}

fn are_zeros(bytes: &[u8]) -> bool
    ensures { IsTrue result ↔ EachIndex bytes.now (λ k. slice_index bytes.now k ≡ 0) }
{
    bytes.iter().all(|byte| *byte == 0)
}
