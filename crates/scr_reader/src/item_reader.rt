//! An item, read from its printed spelling.

ghost use Rattle.std.specs.Prelude.{◌≡◌, ◌≢◌, ◌<◌, IfOk, IfSome, IsSomeAnd, Some};
ghost use Rattle.std.specs.Option.{option_copied};
ghost use Rattle.scr_reader.specs.Rows.{entry, IsRow};
ghost use Rattle.scr_reader.specs.Messages.{AsksChange};
ghost use Rattle.scr_reader.specs.Printed.{IsAsked, LineFits};
ghost use Rattle.scr_reader.specs.Again.{IsItemText, IsFitItem};
ghost use Rattle.scr_reader.specs.declared.line.Code.TheVariants.{C, R, L};
ghost use Rattle.scr_reader.specs.declared.line.Item.{Item as ItemValue};
ghost use Rattle.scr_reader.specs.declared.line.Item.TheVariants.{One, Pair};
ghost use Rattle.scr_reader.specs.declared.line.Line.{Line as LineValue};

use crate::line::{Code, Item, Line};
use crate::pairs::asks_change;
use crate::print::print_item;
use crate::rows::{Reading, read_row};
use season_days::Season;
use season_days::laws::named_days;
use slot_text::{Lines, Memory};
use std::alloc::Global;

/// The item whose printed text in a season this is, as `print_item` writes it. None for every other
/// text, also for another spelling of an item. So a text is that of one item at most. It takes
/// memory once, for the item's text.
pub fn read_item(alloc: Global, season: &Season, text: &[u8]) -> Result<Option<Item>, Memory>
    ensures found { IfOk result (λ read. IfSome read (IsItemText season.now text.now)) }
    ensures only { (item : ItemValue) → IsItemText season.now text.now item →
        IfOk result (λ read. read ≡ Some item) }
{
    let Some(item) = item_in(season, text) else {
        return Ok(None);
    };
    let mut printed = Vec::new(alloc);
    print_item(alloc, &mut printed, season, &item)?;
    if printed.as_slice() == text {
        Ok(Some(item))
    } else {
        Ok(None)
    }
}

/// The item that the first lines of a text spell, in whatever spelling.
fn item_in(season: &Season, text: &[u8]) -> Option<Item>
    ensures fits { IfSome result (IsFitItem season.now) }
    ensures only { (item : ItemValue) → IsItemText season.now text.now item → result ≡ Some item }
{
    named_days();
    check_year(season);
    let mut lines = Lines::new(text);
    let first = lines.next_line()?;
    match read_row(season, first) {
        Reading::Entry(line) => item_from(season, line, lines.next_line()),
        Reading::Question(flight) => Some(Item::Query(flight)),
        Reading::Remark => None,
        Reading::LongRemark => None,
        Reading::TooLong => None,
        Reading::Bad(_) => None,
    }
}

/// The law that a season's year has two digits.
fn check_year(season: &Season)
    ensures { season.now.year < 100 }
{
    let _text = season.text();
}

/// The item that a line makes with the one that follows it: a pair, where it is a line to be
/// changed.
fn item_from(season: &Season, line: Line, next: Option<&[u8]>) -> Option<Item>
    requires fits { LineFits season.now line }
    requires asked { IsAsked line.code }
    ensures fit { IfSome result (IsFitItem season.now) }
    ensures one { line.code ≢ C → line.code ≢ R → line.code ≢ L → result ≡ Some (One line) }
    ensures pair { (asking : LineValue) → line.code ≡ C → AsksChange line asking →
        IsSomeAnd (option_copied next.entry) (λ text. IsRow season.now text (entry asking)) →
        result ≡ Some (Pair line asking) }
{
    match line.code {
        Code::C => {
            let asking = line_on(season, next?)?;
            if asks_change(&line, &asking) {
                Some(Item::Pair(line, asking))
            } else {
                None
            }
        }
        Code::R => None,
        Code::L => None,
        _ => Some(Item::One(line)),
    }
}

/// The data line that a line of a text is.
fn line_on(season: &Season, text: &[u8]) -> Option<Line>
    ensures found { IfSome result (λ line. IsRow season.now text.now (entry line)) }
    ensures only { (line : LineValue) → IsRow season.now text.now (entry line) →
        result ≡ Some line }
{
    match read_row(season, text) {
        Reading::Entry(line) => Some(line),
        Reading::Question(_) => None,
        Reading::Remark => None,
        Reading::LongRemark => None,
        Reading::TooLong => None,
        Reading::Bad(_) => None,
    }
}
