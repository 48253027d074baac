//! The names of windows in a report.

ghost use Rattle.std.specs.Prelude.{◌≡◌, ◌<◌};
ghost use Rattle.season_days.specs.Capacity.{capacity_of, start_of, starts_of};
ghost use Rattle.report_lines.specs.Words.{name_of, IsNamedDay};

use capacity_windows::Windows;
use season_days::{Declaration, Rule};

/// Which window a resource is: of a capacity line, counted from 1, the one of a day of the season
/// that begins at a minute of the day; or the night quota; or nothing, past the last.
#[derive(Clone, Copy, Debug, PartialEq, Eq)]
pub enum WindowName {
    Window { line: u32, day: u32, minute: u32 },
    Night,
    Nothing,
}

// The minute of the day at which a start of a capacity line lies.
fn minute_of(step: u32, rule: Rule, start: u32) -> u32
    requires { start < starts_of step rule }
    ensures { result ≡ start_of step rule start }
{
    rule.from + start * step
}

/// The name of a resource: one step a capacity line.
pub(crate) fn name_of(declaration: &Declaration, windows: &Windows, resource: u32) -> WindowName
    requires { windows.now ≡ capacity_of declaration.now }
    ensures name { result ≡ name_of windows.now resource }
    ensures day { IsNamedDay windows.now.season result }
{
    let rules = declaration.rules.items();
    let mut rest = resource;
    for line in 0..windows.lines() {
        let rule = rules[line as usize];
        let starts = windows.starts(line);
        let count = windows.days() * starts;
        if rest < count {
            return WindowName::Window {
                line: line + 1,
                day: rest / starts,
                minute: minute_of(declaration.step, rule, rest % starts),
            };
        }
        rest -= count;
    }
    match declaration.night {
        Some(_) if rest == 0 => WindowName::Night,
        _ => WindowName::Nothing,
    }
}
