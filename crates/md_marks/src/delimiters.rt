//! Pairs runs of `*`, `_` and `~`.

ghost use Rattle.std.specs.Prelude.{◌≡◌, ◌≤◌, ◌<◌, ◌-◌, ◌++◌, ◌∷◌, [], ℕ, true, false, OnOk, IfSome, IfNone};
ghost use Rattle.std.specs.Prelude.{drop, get_or, length, option_map, reverse, take};
ghost use Rattle.md_marks.specs.Emphasis.{available, is_unused, may_pair, pair_width};
ghost use Rattle.md_marks.specs.Openers.{AreBottoms, AreOpen, found_at, kept_to, kind_of};
ghost use Rattle.md_marks.specs.Openers.{no_run};
ghost use Rattle.md_marks.specs.Pairs.{start_mark, end_mark, closed, closer_left, joined, nearest, opener_left, pair_of};
ghost use Rattle.md_marks.specs.Pairs.{openers_after, run_closed, pairs_after, with_end, with_pair, with_pairs};

use crate::token::{Mark, Token, set_mark};
use std::alloc::{AllocError, Global};
use std::marker::Model;

/// A run of one mark. Each of its bytes is a token; those without a pair follow one another.
#[derive(Clone, Copy, Debug, PartialEq, Eq)]
pub struct Delimiter {
    /// The token of its first byte without a pair.
    pub start: usize,
    /// The token after its last byte without a pair.
    pub end: usize,
    /// Its length in bytes, with those that have a pair.
    pub length: usize,
    pub byte: u8,
    pub opens: bool,
    pub closes: bool,
}

/// The number of kinds of closers, by what they match.
const KINDS: usize = 14;

impl Delimiter {
    /// How many of its bytes have no pair.
    fn available(&self) -> usize
        ensures { result ≡ available self.now }
    {
        self.end.saturating_sub(self.start)
    }

    /// Whether no byte has a pair.
    fn is_unused(&self) -> bool
        ensures { result ≡ is_unused self.now }
    {
        self.available() == self.length
    }

    /// The kind of the run as a closer: the runs of a kind match the same openers. `KINDS` if it
    /// has no kind.
    fn kind(&self) -> usize
        ensures { result ≡ kind_of self.now }
    {
        let thirds = self.length % 3 + if self.opens { 3 } else { 0 };
        match self.byte {
            b'*' => thirds,
            b'_' => thirds + 6,
            b'~' if self.is_unused() && self.length == 1 => 12,
            b'~' if self.is_unused() && self.length == 2 => 13,
            _ => KINDS,
        }
    }

    /// Whether it opens what another run closes.
    fn fits(&self, closer: &Delimiter) -> bool
        ensures { result ≡ may_pair self.now closer.now }
    {
        if self.byte != closer.byte {
            return false;
        }
        if closer.byte == b'~' {
            return self.length == closer.length && self.is_unused() && closer.is_unused();
        }
        let is_both = self.closes || closer.opens;
        let thirds = (self.length % 3, closer.length % 3);
        !is_both || !matches!(thirds, (1, 2) | (2, 1))
    }

    /// How many bytes of each run form a pair.
    fn width(&self, closer: &Delimiter) -> usize
        ensures { result ≡ pair_width self.now closer.now }
    {
        if closer.byte == b'~' {
            self.available()
        } else if self.available() > 1 && closer.available() > 1 {
            2
        } else {
            1
        }
    }
}

/// The runs of a leaf that have no pair yet.
#[derive(Drop)]
pub struct Delimiters {
    list: Vec<Delimiter>,
    /// Those before the current one that may be openers.
    openers: Vec<Delimiter>,
}

impl Model for Delimiters {
    ghost use Rattle.std.specs.Prelude.{List};
    ghost use Rattle.md_marks.specs.declared.delimiters.Delimiter as runs;

    ghost Value = { List runs.Delimiter };

    ghost view = { λ runs. runs.list.items };
}

impl Delimiters {
    /// No runs.
    pub fn new(alloc: Global) -> Delimiters
        ensures { result ≡ [] }
    {
        Delimiters {
            list: Vec::new(alloc),
            openers: Vec::new(alloc),
        }
    }

    /// The number of runs.
    pub fn len(&self) -> usize
        ensures { result ≡ length self.now }
    {
        self.list.len()
    }

    /// Adds a run.
    ///
    /// # Errors
    ///
    /// Returns an error only if memory runs out.
    pub fn push(&mut self, delimiter: Delimiter) -> Result<(), AllocError>
        ensures { OnOk result (self.new ≡ self.old ++ delimiter ∷ []) }
    {
        self.list.push(delimiter)?;
        Ok(())
    }

    /// Removes the runs from an index.
    pub fn truncate(&mut self, length: usize)
        ensures { self.new ≡ take length self.old }
    {
        self.list.truncate(length);
    }

    /// Pairs the runs from an index, and removes them.
    ///
    /// # Errors
    ///
    /// Returns an error only if memory runs out.
    #[inline(always)]
    pub fn resolve(&mut self, tokens: &mut Vec<Token>, from: usize) -> Result<(), AllocError>
        ensures pairs { OnOk result (tokens.new.items
            ≡ with_pairs (pairs_after [] (drop from self.old)) tokens.old.items) }
        ensures rest { OnOk result (self.new ≡ take from self.old) }
    {
        if self.list.len() <= from {
            return Ok(());
        }
        let Delimiters { list, openers } = self;
        pair_all(list, from, openers, tokens)
    }
}

/// Pairs the runs from an index, and removes them.
#[inline(never)]
fn pair_all(
    list: &mut Vec<Delimiter>,
    from: usize,
    openers: &mut Vec<Delimiter>,
    tokens: &mut Vec<Token>,
) -> Result<(), AllocError>
    ensures pairs { OnOk result (tokens.new.items
        ≡ with_pairs (pairs_after [] (drop from list.old.items)) tokens.old.items) }
    ensures rest { OnOk result (list.new.items ≡ take from list.old.items) }
{
    openers.clear();
    let mut bottoms = [0; KINDS];
    let mut at = from;
    'runs: while at < list.len() {
        read_run(openers, tokens, list[at], &mut bottoms)?;
        at += 1;
    }
    list.truncate(from);
    Ok(())
}

/// Pairs a run with the openers before it, if it closes; if it opens, what is left of it is one of
/// them then. `bottoms` has for each kind the number of openers that are known not to match.
fn read_run(
    openers: &mut Vec<Delimiter>,
    tokens: &mut Vec<Token>,
    run: Delimiter,
    bottoms: &mut [usize; KINDS],
) -> Result<(), AllocError>
    requires open { AreOpen openers.old.items }
    requires bottoms { AreBottoms bottoms.old openers.old.items }
    ensures openers { OnOk result (reverse openers.new.items
        ≡ openers_after (run_closed (reverse openers.old.items) run)) }
    ensures tokens { OnOk result (tokens.new.items ≡ with_pairs
        (run_closed (reverse openers.old.items) run).pairs tokens.old.items) }
    ensures open { OnOk result (AreOpen openers.new.items) }
    ensures bottoms { OnOk result (AreBottoms bottoms.new openers.new.items) }
{
    let rest = close(openers, tokens, run, bottoms);
    if rest.opens && rest.available() > 0 {
        openers.push(rest)?;
    }
    Ok(())
}

/// Pairs a run with the openers before it, if it closes. Returns what is left of it.
fn close(
    openers: &mut Vec<Delimiter>,
    tokens: &mut Vec<Token>,
    run: Delimiter,
    bottoms: &mut [usize; KINDS],
) -> Delimiter
    requires open { AreOpen openers.old.items }
    requires bottoms { AreBottoms bottoms.old openers.old.items }
    ensures left { result ≡ (run_closed (reverse openers.old.items) run).closer }
    ensures openers { reverse openers.new.items
        ≡ (run_closed (reverse openers.old.items) run).before }
    ensures tokens { tokens.new.items ≡ with_pairs
        (run_closed (reverse openers.old.items) run).pairs tokens.old.items }
    ensures open { AreOpen openers.new.items }
    ensures bottoms { AreBottoms bottoms.new openers.new.items }
{
    if run.closes {
        pair_closer(openers, tokens, run, bottoms)
    } else {
        run
    }
}

/// Pairs a closer with the openers before it that match, the nearest first. Returns what is left of
/// it.
fn pair_closer(
    openers: &mut Vec<Delimiter>,
    tokens: &mut Vec<Token>,
    run: Delimiter,
    bottoms: &mut [usize; KINDS],
) -> Delimiter
    requires open { AreOpen openers.old.items }
    requires bottoms { AreBottoms bottoms.old openers.old.items }
    ensures left { result
        ≡ (closed (available run) (reverse openers.old.items) run).closer }
    ensures openers { reverse openers.new.items
        ≡ (closed (available run) (reverse openers.old.items) run).before }
    ensures tokens { tokens.new.items ≡ with_pairs
        (closed (available run) (reverse openers.old.items) run).pairs tokens.old.items }
    ensures open { AreOpen openers.new.items }
    ensures bottoms { AreBottoms bottoms.new openers.new.items }
{
    let mut closer = run;
    'pairs: while closer.available() > 0 {
        let kind = closer.kind();
        let bottom = if kind < KINDS { bottoms[kind] } else { 0 };
        let Some(height) = opener_height(openers, &closer, bottom) else {
            if kind < KINDS {
                bottoms[kind] = openers.len();
            }
            return closer;
        };
        closer = pair(openers, tokens, height, closer);
        *bottoms = lowered(bottoms, openers.len());
    }
    closer
}

/// The index of the last opener that matches. Those below `bottom` are known not to.
fn opener_height(openers: &[Delimiter], closer: &Delimiter, bottom: usize) -> Option<usize>
    requires within { bottom ≤ length openers.now }
    requires bottom { (i : ℕ) → i < bottom
        → may_pair (get_or openers.now i no_run) closer.now ≡ false }
    ensures found { nearest closer.now (reverse openers.now)
        ≡ option_map (found_at openers.now) result }
    ensures within { IfSome result (λ height. height < length openers.now) }
    ensures fits { IfSome result (λ height.
        may_pair (found_at openers.now height).opener closer.now ≡ true) }
    ensures none { IfNone result ((i : ℕ) → i < length openers.now
        → may_pair (get_or openers.now i no_run) closer.now ≡ false) }
{
    let mut height = openers.len();
    'openers: while height > bottom {
        height -= 1;
        if openers[height].fits(closer) {
            return Some(height);
        }
    }
    None
}

/// Pairs bytes of an opener and of a closer. The openers between them are removed. Returns what is
/// left of the closer.
fn pair(
    openers: &mut Vec<Delimiter>,
    tokens: &mut Vec<Token>,
    height: usize,
    closer: Delimiter,
) -> Delimiter
    requires within { height < length openers.old.items }
    requires fits { may_pair (found_at openers.old.items height).opener closer ≡ true }
    requires left { 0 < available closer }
    requires open { AreOpen openers.old.items }
    ensures left { result ≡ closer_left
        (pair_width (found_at openers.old.items height).opener closer) closer }
    ensures openers { openers.new.items ≡ kept_to height (opener_left
        (pair_width (found_at openers.old.items height).opener closer)
        (found_at openers.old.items height).opener) openers.old.items }
    ensures tokens { tokens.new.items ≡ with_pair
        (pair_of (found_at openers.old.items height).opener closer) tokens.old.items }
{
    let opener = openers[height];
    let width = opener.width(&closer);
    let opener_left = Delimiter {
        end: opener.end - width,
        ..opener
    };
    let closer_left = Delimiter {
        start: closer.start + width,
        ..closer
    };
    let (start, end) = marks_of(closer.byte, width);
    join(tokens, opener_left.end, opener.end, start);
    join(tokens, closer.start, closer_left.start, end);
    openers[height] = opener_left;
    openers.truncate(if opener_left.available() > 0 {
        height + 1
    } else {
        height
    });
    closer_left
}

/// The numbers, or this one where they are greater.
fn lowered(bottoms: &[usize; KINDS], most: usize) -> [usize; KINDS]
    requires { length bottoms.now ≡ 14 }
    ensures count { length result ≡ 14 }
    ensures within { (kind : ℕ) → get_or result kind 0 ≤ most }
    ensures less { (kind : ℕ) → get_or result kind 0 ≤ get_or bottoms.now kind 0 }
{
    let mut lowered = *bottoms;
    let mut kind = 0;
    'kinds: while kind < KINDS {
        lowered[kind] = lowered[kind].min(most);
        kind += 1;
    }
    lowered
}

/// What a pair of `width` bytes of each run begins, and what it ends.
fn marks_of(byte: u8, width: usize) -> (Mark, Mark)
    ensures start { result.0 ≡ start_mark byte width }
    ensures end { result.1 ≡ end_mark byte width }
{
    match (byte, width) {
        (b'~', _) => (Mark::StrikethroughStart, Mark::StrikethroughEnd),
        (_, 1) => (Mark::EmphasisStart, Mark::EmphasisEnd),
        _ => (Mark::StrongStart, Mark::StrongEnd),
    }
}

/// Makes the tokens from `start` to `end` one with this mark.
fn join(tokens: &mut Vec<Token>, start: usize, end: usize, mark: Mark)
    requires some { start < end }
    ensures { tokens.new.items ≡ joined mark start (end - start) tokens.old.items }
{
    set_end(tokens, start, end - 1);
    set_mark(tokens, start, mark);
    let mut next = start + 1;
    'tokens: while next < end {
        set_mark(tokens, next, Mark::Nothing);
        next += 1;
    }
}

/// Lets a token go on to the end of another one.
fn set_end(tokens: &mut Vec<Token>, index: usize, last: usize)
    ensures { tokens.new.items ≡ with_end index last tokens.old.items }
{
    let Some(other) = tokens.get(last).copied() else {
        return;
    };
    if let Some(token) = tokens.get_mut(index) {
        token.end = other.end;
    }
}
