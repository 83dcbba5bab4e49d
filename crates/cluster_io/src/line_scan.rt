ghost use Rattle.std.specs.Prelude.{◌≡◌, ℕ, ◌+◌, ◌≤◌, ◌<◌, ◌&&◌, ◌||◌, not, false, drop, length, MatchOption, IfOk, IfErr};
ghost use Rattle.crm_lex.specs.RawLines.{begins_comment, ends_in_backslash};
ghost use Rattle.cluster_io.specs.NextLine.{has_feed};
ghost use Rattle.cluster_io.specs.Inner.Scanning.{Looked};
ghost use Rattle.cluster_io.specs.Inner.FoundLines.{Finds, FeedAt, FeedIn, FindsLast, before_feed};

use crm_lex::{begins_comment, ends_in};

/// How far a reader has looked through what it holds: all before `scanned`.
#[derive(Clone, Copy)]
pub(crate) struct Scan {
    /// Where the physical line begins that is looked at. Those before it go on.
    pub(crate) line: usize,

    /// Up to here that line has no line feed.
    pub(crate) scanned: usize,

    /// How many bytes the physical lines before it have without line ends.
    pub(crate) content: usize,

    /// How many physical lines are before it.
    pub(crate) lines: usize,
}

/// What bounds the next line.
#[derive(Clone, Copy)]
pub(crate) struct Bounds {
    /// How many of the bytes to come lie within the limit.
    pub(crate) room: usize,

    /// How many bytes a logical line may have without line ends.
    pub(crate) longest: usize,
}

/// What is found in the bytes that a reader holds.
#[derive(Clone, Copy)]
pub(crate) enum Found {
    /// A whole logical line, of so many bytes and physical lines.
    Line(usize, usize),

    /// The logical line has too many bytes.
    TooLong,

    /// The logical line goes past the limit.
    TooLarge,

    /// The logical line isn't whole.
    More,
}

/// The place of the first line feed.
fn first_feed(bytes: &[u8]) -> Option<usize>
    ensures { MatchOption result (has_feed bytes.now ≡ false) (λ feed. FeedAt bytes.now feed) }
{
    for (i, b) in bytes.iter().enumerate() {
        if *b == b'\n' {
            return Some(i);
        }
    }
    None
}

/// What a physical line has before its line end, where this is what it has before its line feed.
fn before_end(text: &[u8]) -> &[u8]
    ensures { result.now ≡ before_feed text.now }
{
    if ends_in(b'\r', text) {
        return &text[..text.len() - 1];
    }
    text
}

/// A physical line with this content goes on with the next one.
fn goes_on(continues: bool, text: &[u8]) -> bool
    ensures { result ≡ (ends_in_backslash text.now && (continues || not (begins_comment text.now))) }
{
    ends_in(b'\\', text) && (continues || !begins_comment(text))
}

/// Looks at the physical line up to the line feed. Where the logical line goes on behind it, this is
/// how far the reader has looked then.
fn line_at(held: &[u8], scan: Scan, feed: usize, bounds: Bounds) -> Result<Scan, Found>
    requires looked { Looked bounds held.now scan }
    requires feed { FeedIn held.now scan feed }
    requires in_room { length held.now ≤ bounds.room + 1 }
    ensures next { IfOk result (λ next. Looked bounds held.now next) }
    ensures further { IfOk result (λ next. scan.scanned < next.scanned) }
    ensures found { IfErr result (λ found. Finds found bounds held.now scan.scanned scan) }
{
    let text = before_end(&held[scan.line..feed]);
    let content = scan.content + text.len();
    if content > bounds.longest {
        return Err(Found::TooLong);
    }
    if feed >= bounds.room {
        return Err(Found::TooLarge);
    }
    let lines = scan.lines + 1;
    if !goes_on(scan.line > 0, text) {
        return Err(Found::Line(feed + 1, lines));
    }
    Ok(Scan {
        line: feed + 1,
        scanned: feed + 1,
        content,
        lines,
    })
}

/// Looks at the rest of what is held, which has no line feed.
fn rest_of(held: &[u8], scan: Scan, bounds: Bounds) -> (Scan, Found)
    requires looked { Looked bounds held.now scan }
    requires rest { has_feed (drop scan.line held.now) ≡ false }
    requires in_room { length held.now ≤ bounds.room + 1 }
    ensures looked { Looked bounds held.now result.0 }
    ensures further { scan.scanned ≤ result.0.scanned }
    ensures found { Finds result.1 bounds held.now scan.scanned result.0 }
{
    let rest = &held[scan.line..];
    if (scan.content + rest.len()).saturating_sub(1) > bounds.longest {
        return (scan, Found::TooLong);
    }
    if held.len() > bounds.room {
        return (scan, Found::TooLarge);
    }
    // A carriage return may begin a line end; each other byte is of the line.
    if scan.content + before_end(rest).len() > bounds.longest {
        return (scan, Found::TooLong);
    }
    let scanned = held.len();
    (Scan { scanned, ..scan }, Found::More)
}

/// Looks on from `scan`, until the logical line is found to be whole, too long or past the room, or
/// all that is held was looked at.
pub(crate) fn look(held: &[u8], scan: Scan, bounds: Bounds) -> (Scan, Found)
    requires looked { Looked bounds held.now scan }
    requires in_room { length held.now ≤ bounds.room + 1 }
    ensures looked { Looked bounds held.now result.0 }
    ensures further { scan.scanned ≤ result.0.scanned }
    ensures found { Finds result.1 bounds held.now scan.scanned result.0 }
{
    let mut at = scan;
    while let Some(feed) = first_feed(&held[at.scanned..]) {
        match line_at(held, at, at.scanned + feed, bounds) {
            Ok(next) => at = next,
            Err(found) => return (at, found),
        }
    }
    rest_of(held, at, bounds)
}

/// What is found in all that the source has given, at its end.
pub(crate) fn last_line(held: &[u8], scan: Scan, bounds: Bounds) -> Found
    requires looked { Looked bounds held.now scan }
    requires some { 0 < length held.now }
    requires in_room { length held.now ≤ bounds.room }
    requires all_scanned { scan.scanned ≡ length held.now }
    ensures { FindsLast result bounds held.now }
{
    let rest = held.len() - scan.line;
    if scan.content + rest > bounds.longest {
        return Found::TooLong;
    }
    if rest == 0 {
        Found::Line(held.len(), scan.lines)
    } else {
        Found::Line(held.len(), scan.lines + 1)
    }
}
