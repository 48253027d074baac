//! The fixed texts of a page, and the templates of its rows.
//!
//! A template is filled with the words of one line of a report, in their order. Its marks are: `$`
//! the next word; `#` the number that it spells; `@` the minute of the day that it spells as hours
//! and minutes; `~` nothing, the word is passed over; `*` all words before UNITS or LIMIT, or up to
//! the line's end. Each other byte stands for itself. The line that fills a template stands above
//! it.

/// The next word.
pub const WORD: u8 = b'$';
/// The number of the next word.
pub const NUMBER: u8 = b'#';
/// The next word as a minute of the day.
pub const MINUTE: u8 = b'@';
/// The next word is passed over.
pub const PASSED: u8 = b'~';
/// The words before UNITS or LIMIT.
pub const WORDS: u8 = b'*';

/// A part of the page that shows each line of its kinds by one row.
#[derive(Clone, Copy, Debug, PartialEq, Eq)]
pub enum Section {
    /// What the browser's window is called.
    Title,
    /// The width of the bars.
    Step,
    /// The heading, and the rules.
    Heading,
    /// The stages.
    Stages,
    /// The airlines.
    Airlines,
    /// The night quota.
    Night,
}

// ---- the head

/// Up to the title.
pub const OPENING: &[u8] = b"<!DOCTYPE html>\n<html lang=\"en\"><head><meta charset=\"utf-8\">\n\
<meta name=\"viewport\" content=\"width=device-width,initial-scale=1\">\n\
<title>Slot report";

/// AIRPORT x SEASON y
pub const TITLE: &[u8] = b"~ $~ $";

/// The style of all parts.
pub const STYLE: &[u8] = b"</title>\n<style>\n\
body{font:15px/1.4 system-ui,sans-serif;max-width:66em;margin:0 auto;padding:0 12px;\
color:#111;background:#fff;font-variant-numeric:tabular-nums}\n\
h1{font-size:1.5em;margin:.6em 0 .2em}\n\
h2{font-size:1.2em;margin:1.6em 0 .3em;border-bottom:2px solid #246}\n\
p{margin:.3em 0}\n\
table{border-collapse:collapse;width:100%}\n\
th,td{padding:2px 6px;text-align:left;vertical-align:top;font-weight:400;\
border-top:1px solid #ccc}\n\
thead th{border-top:0;font-weight:600}\n\
.n th,.n td{text-align:right}\n\
.n th:first-child,.n .l{text-align:left}\n\
.s th{color:#555;white-space:nowrap}\n\
.s .u th,.s .u td{border-top:2px solid #246;color:#111;background:#eef2f7}\n\
.r th,.r td{text-align:right;white-space:nowrap}\n\
.r th:first-child,.r :nth-child(3),.r :nth-child(4),.r :nth-child(8){text-align:left}\n\
.m{font-family:ui-monospace,monospace;font-size:.9em}\n\
.s td{overflow-wrap:anywhere}\n\
.g{display:grid;grid-template-columns:repeat(auto-fit,minmax(min(300px,100%),1fr));\
gap:1em 1.6em;margin-top:.6em}\n\
figure{margin:0;break-inside:avoid;display:flex;flex-direction:column}\n\
figcaption{font-size:.87em;flex:1}\n\
svg{display:block;width:100%;height:110px;margin-top:4px;\
border-top:2px solid #a22;border-bottom:1px solid #111}\n\
.x{display:flex;justify-content:space-between;font-size:.75em;margin:0}\n\
.h{stroke:#bbb;stroke-width:1px;vector-effect:non-scaling-stroke}\n\
.b{stroke:#246;stroke-width:var(--step);transform:translateX(calc(var(--step)/2))}\n\
@media(max-width:600px){body{font-size:13px}th,td{padding:2px 3px}\
.n thead th{writing-mode:vertical-rl;text-align:right;padding:3px}\
.n thead th:first-child,.n thead .l{\
writing-mode:horizontal-tb;vertical-align:bottom;text-align:left}\
.s thead{display:none}.r{border-top:1px solid #ccc}.r th,.r td{border:0}\
.r td{display:inline-block;padding:0 6px 0 0}.r td:nth-child(2):before{content:\"Stage \"}\
.r td:nth-child(4):before{content:\"to \"}.r td:nth-child(5):before{content:\"choices \"}\
.r td:nth-child(6):before{content:\"cost \"}.r td:nth-child(7):before{content:\"dates \"}\
.r td:nth-child(8):before{content:\"by \"}.r td:nth-child(9):before{content:\"limit \"}\
.r td:nth-child(10):before{content:\"earlier \"}.r td:nth-child(11):before{content:\"others \"}\
.r td:nth-child(12):before{content:\"this \"}}\n\
@media print{body{font-size:9pt;max-width:none;padding:0}th,td{padding:1px 4px}\
h2{break-after:avoid}tr{break-inside:avoid}}\n\
";

/// RULES STEP n FLEX n GROUND n SHARE n REFUSE p
pub const STEP: &[u8] = b"~~:root{--step:#px}\n";

// ---- the heading

/// The end of the head.
pub const BODY: &[u8] = b"</style></head>\n<body>\n<h1>Slot report";

/// AIRPORT x SEASON y
pub const HEADING: &[u8] = b"~ $~ $</h1>\n";

/// RULES STEP n FLEX n GROUND n SHARE n REFUSE p
pub const RULES: &[u8] = b"~<p>~Times move by steps of $ minutes, \
~at most $ minutes. ~Ground time: at least $ minutes. ~New entrants: $ % of what is left. \
~Price of a refusal: $.</p>\n";

// ---- the stages

/// Their table's head.
pub const STAGES: &[u8] = b"<h2>Stages</h2>\n\
<p>1: historic series. 2: changed historic series. 3: new entrants. 4: all others. \
Minutes: how far times were moved, over all dates.</p>\n\
<table class=\"n\"><thead><tr><th>Stage<th class=\"l\">Result<th>Units<th>Kept<th>Historic\
<th>Moved<th>Refused<th>None<th>Minutes<tbody>\n";

/// STAGE t result UNITS u KEPT k HISTORIC h MOVED m REFUSED r NONE w MINUTES a
pub const STAGE: &[u8] = b"~<tr><th>$<td class=\"l\">*~<td>$~<td>$~<td>$~<td>$~<td>$~<td>$~<td>$\n";

/// OVER window DAYS d LIMIT l EARLIER e LEAST k
pub const OVER: &[u8] =
    b"~<tr><td><td class=\"l\" colspan=\"8\">Too much in any case:*: ~limit $, ~earlier stages $, \
~this stage at least $\n";

// ---- the airlines

/// Their table's head.
pub const AIRLINES: &[u8] = b"</table>\n<h2>Airlines</h2>\n\
<table class=\"n\"><thead><tr><th>Airline<th>Units<th>Kept<th>Historic\
<th>Moved<th>Refused<th>None<th>Minutes<tbody>\n";

/// AIRLINE x UNITS u KEPT k HISTORIC h MOVED m REFUSED r NONE w MINUTES a
pub const AIRLINE: &[u8] = b"~<tr><th>$~<td>$~<td>$~<td>$~<td>$~<td>$~<td>$~<td>$\n";

// ---- the capacity lines

/// What their pictures show.
pub const CAPACITY: &[u8] = b"</table>\n<h2>Capacity</h2>\n\
<p>For each capacity line the load of the windows that begin at a time of the day, on the date \
with the greatest. The upper edge is the limit.</p>\n";

/// NIGHT from to limit
pub const NIGHT: &[u8] = b"~<p>Night quota, $ to $: limit $";

/// PROFILE NIGHT LOAD k LIMIT l
pub const NIGHT_LOAD: &[u8] = b"~~, ~load $.</p>\n";

/// The begin of the pictures.
pub const PICTURES: &[u8] = b"<div class=\"g\">\n";

/// CAPACITY i kind length from to days limit
pub const CAPTION: &[u8] = b"~<figure><figcaption><b>Line $: $</b> within $ minutes, \
from $ to $, days $, limit $. ";

/// PROFILE i start LOAD k LIMIT l DATE date
pub const PEAK: &[u8] = b"~~Peak at $: ~$ of ~$ on ~$.";

/// No line fills it.
pub const NO_PEAK: &[u8] = b"No load.";

/// CAPACITY i kind length from to days limit
pub const FRAME: &[u8] = b"~~~~~~~</figcaption><svg preserveAspectRatio=\"none\" viewBox=\"0 -#";

/// CAPACITY i kind length from to days limit
pub const GRID: &[u8] = b"~~~~~~~ 1440 #\">\
<path class=\"h\" d=\"M360 0V-999999M720 0V-999999M1080 0V-999999\"/>\n";

/// PROFILE i start LOAD k LIMIT l DATE date
pub const BAR: &[u8] = b"~~<path class=\"b\" d=\"M@ 0~v-#\"><title>";

/// PROFILE i start LOAD k LIMIT l DATE date
pub const BAR_TITLE: &[u8] = b"~~$: ~$ of ~$ on ~$</title></path>\n";

/// The end of a picture, with the hours below it.
pub const HOURS: &[u8] = b"</svg><p class=\"x\"><span>00</span><span>06</span><span>12</span>\
<span>18</span><span>24</span></p></figure>\n";

// ---- the series

/// Their table's head.
pub const SERIES: &[u8] = b"</div>\n<h2>Series without the times that they asked for</h2>\n\
<p>Shift: minutes on one date. Cost: minutes over all dates, or the price of a refusal. Below each \
series stand the cheaper choices of times (arrival, departure). Not: barred on at least so many \
dates; at the window or night quota named, the other series of the stage and this one together \
pass the limit of the stage (Earlier: the load of the stages before). Fits: barred by nothing.</p>\n\
<table class=\"s\"><thead><tr class=\"r\"><th><th>Stage<th>First times<th>Last times<th>Choices\
<th>Cost from<th>Dates<th>Barred by<th>Limit<th>Earlier<th>Others<th>This</thead>\n";

/// UNIT n STAGE s outcome DATES d SHIFT a COST c
pub const UNIT: &[u8] = b"~<tbody><tr class=\"u\"><th>Line $<td colspan=\"11\">~Stage $: <b>$</b>, \
~$ dates, ~shift $, ~cost $\n";

/// HELD line
pub const HELD: &[u8] = b"~<tr><th>Held<td class=\"m\" colspan=\"11\">*\n";

/// ASKED line
pub const ASKED: &[u8] = b"~<tr><th>Asked<td class=\"m\" colspan=\"11\">*\n";

/// GIVEN line
pub const GIVEN: &[u8] = b"~<tr><th>Given<td class=\"m\" colspan=\"11\">*\n";

/// NOT s times TO times COUNT n COST c DATES m BY window LIMIT l EARLIER e OTHERS k USES u
pub const NOT: &[u8] = b"~<tr class=\"r\"><th>Not<td>$<td>$ $~<td>$ $~<td>$~<td>$~<td>$~<td>*\
~<td>$~<td>$~<td>$~<td>$\n";

/// FITS s times TO times COUNT n COST c
pub const FITS: &[u8] = b"~<tr class=\"r\"><th>Fits<td>$<td>$ $~<td>$ $~<td>$~<td>$\n";

/// The end of the page.
pub const CLOSING: &[u8] = b"</table>\n</body></html>\n";
