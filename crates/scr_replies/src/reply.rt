//! The replies to messages of asks.

ghost use Rattle.std.specs.Prelude.{◌≡◌, ◌++◌, IfOk, OnOk};
ghost use Rattle.season_days.specs.Term.{Term};
ghost use Rattle.scr_replies.specs.Replies.{answers_text, reply_text, AreAnswerLines, bad_text};

use crate::asked::put_answer;
use holding_book::Answer;
use scr_reader::{Message, Placed, print_header};
use season_days::Season;
use slot_text::{Memory, put_number};
use std::alloc::Global;

// Appends the answers to items, in their order.
fn put_answers(
    alloc: Global,
    out: &mut Vec<u8>,
    season: &Season,
    items: &[Placed],
    answers: &[Answer],
) -> Result<(), Memory>
    requires { AreAnswerLines season.now items.now answers.now }
    ensures { OnOk result (out.new.items
        ≡ out.old.items ++ answers_text season.now items.now answers.now) }
{
    for i in 0..items.len() {
        put_answer(alloc, out, season, &items[i].item, &answers[i])?;
    }
    Ok(())
}

/// Appends the reply to a message: the four lines of its header, the lines of the answers to its
/// items in their order, and one empty line. Remarks and the address of the message are not
/// repeated. There is one answer an item, of a kind that the item can have.
///
/// Memory is taken for one line at a time, beside the growth of `out`.
pub fn put_reply(
    alloc: Global,
    out: &mut Vec<u8>,
    message: &Message,
    answers: &[Answer],
) -> Result<(), Memory>
    requires { AreAnswerLines message.now.season message.now.items answers.now }
    ensures { OnOk result
        (out.new.items ≡ out.old.items ++ reply_text message.now answers.now) }
{
    print_header(alloc, out, &message.header())?;
    put_answers(alloc, out, &message.season, message.items.items(), answers)?;
    out.push(b'\n')?;
    Ok(())
}

/// The reply to a message, as `put_reply` appends it.
pub fn reply_message(
    alloc: Global,
    message: &Message,
    answers: &[Answer],
) -> Result<Vec<u8>, Memory>
    requires { AreAnswerLines message.now.season message.now.items answers.now }
    ensures { IfOk result (λ text. text.items ≡ reply_text message.now answers.now) }
{
    let mut out = Vec::new(alloc);
    put_reply(alloc, &mut out, message, answers)?;
    Ok(out)
}

/// Appends the reply to a message that is not good: `BAD` with the number of its bad line, the
/// first line of the message being 1, and one empty line.
pub fn put_bad(alloc: Global, out: &mut Vec<u8>, line: u32) -> Result<(), Memory>
    ensures { OnOk result (out.new.items ≡ out.old.items ++ bad_text line) }
{
    out.extend_from_slice(b"BAD ")?;
    put_number(alloc, out, u64::from(line))?;
    out.extend_from_slice(b"\n\n")?;
    Ok(())
}
