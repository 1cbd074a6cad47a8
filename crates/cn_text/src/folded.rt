//! Lines that are folded: a line that is too wide goes on in the next line.
ghost use Rattle.std.specs.Prelude.{◌≡◌, ◌++◌, [], flat_map, map, string_bytes, IfOk, MatchOption, OnOk};
ghost use Rattle.std.specs.Str.Lines.{lines};
ghost use Rattle.cn_text.specs.Folded.{ends_in_line, ends_in_word, fits, fits_whole, folded, folded_line, kept_together, laid_as_word, laid_rest, margin, FoldsBehind, IsFront};

use crate::limits::{MARGIN, WIDEST_LINE};
use cn_pieces::push_spaces;
use std::alloc::{AllocError, Global};

/// The columns that must fit into the line: those of the word, or, behind a gap of more than two
/// spaces inside a line, those of all that is left.
fn kept_together(left: usize, gap: usize, rest: usize, word: &str) -> usize
    ensures { result ≡ kept_together left gap rest word.now }
{
    if left < WIDEST_LINE && gap > 2 {
        rest
    } else {
        word.len()
    }
}

fn fits(left: usize, gap: usize, rest: usize, word: &str) -> bool
    ensures { result ≡ fits left gap rest word.now }
{
    let needed = kept_together(left, gap, rest, word);
    needed <= left && gap <= left - needed
}

/// Whether the last byte of a text is of a word.
fn ends_in_word(text: &str) -> bool
    ensures { result ≡ ends_in_word text.now }
{
    let bytes = text.as_bytes();
    !bytes.is_empty() && bytes[bytes.len() - 1] != b' '
}

/// Whether the rest of a line fits, with the spaces before it, into the columns that are left, and
/// has no space at its end.
fn fits_whole(left: usize, gap: usize, rest: &str) -> bool
    ensures { result ≡ fits_whole left gap rest.now }
{
    gap <= left && rest.len() <= left - gap && ends_in_word(rest)
}

/// The first word of the rest of a line and what stands behind its space, unless the rest is laid
/// as one word. There is an empty word between two spaces.
fn first_word(left: usize, gap: usize, rest: &str) -> Option<(&str, &str)>
    ensures { MatchOption result (laid_rest left gap rest.now ≡ laid_as_word left gap rest.now)
        (λ cut. IsFront left gap rest.now cut.0.now cut.1.now) }
{
    if fits_whole(left, gap, rest) {
        None
    } else {
        rest.split_once(' ')
    }
}

/// The rest of a line as one word, if it is not empty.
fn push_as_word(text: &mut String, left: usize, gap: usize, rest: &str) -> Result<(), AllocError>
    ensures { OnOk result (string_bytes text.new
        ≡ string_bytes text.old ++ laid_as_word left gap rest.now) }
{
    if rest.is_empty() {
        return Ok(());
    }
    if fits(left, gap, rest.len(), rest) {
        push_spaces(text, gap)?;
    } else {
        push_margin(text)?;
    }
    text.push_str(rest)
}

/// The end of a line, and the margin of the next one.
fn push_margin(text: &mut String) -> Result<(), AllocError>
    ensures { OnOk result (string_bytes text.new ≡ string_bytes text.old ++ margin) }
{
    text.push_str("\n")?;
    push_spaces(text, MARGIN)
}

/// The words of a line, one by one until the rest fits. Those that stand side by side are copied in
/// one piece: the first `len` bytes of `run`.
fn push_words(text: &mut String, line: &str) -> Result<(), AllocError>
    ensures { OnOk result (string_bytes text.new
        ≡ string_bytes text.old ++ laid_rest WIDEST_LINE 0 line.now) }
{
    let (mut run, mut len) = (line, 0);
    let (mut left, mut gap, mut rest) = (WIDEST_LINE, 0, line);
    while let Some((word, behind)) = first_word(left, gap, rest) {
        if word.is_empty() {
            gap += 1;
        } else {
            if fits(left, gap, rest.len(), word) {
                len += gap + word.len();
                left = left.saturating_sub(gap).saturating_sub(word.len());
            } else {
                text.push_str(&run[..len])?;
                push_margin(text)?;
                (run, len) = (rest, word.len());
                left = (WIDEST_LINE - MARGIN).saturating_sub(word.len());
            }
            gap = 1;
        }
        rest = behind;
    }
    text.push_str(&run[..len])?;
    push_as_word(text, left, gap, rest)
}

fn lines_of(alloc: Global, text: &str) -> Result<Vec<&str>, AllocError>
    ensures { IfOk result (λ texts. map (λ line. line.now) texts.items ≡ lines text.now) }
{
    text.lines().collect(alloc)
}

fn push_line(text: &mut String, line: &str) -> Result<(), AllocError>
    ensures { OnOk result (string_bytes text.new
        ≡ string_bytes text.old ++ folded_line line.now) }
{
    push_words(text, line)?;
    text.push_str("\n")
}

fn push_lines(text: &mut String, lines: &[&str]) -> Result<(), AllocError>
    ensures { OnOk result (string_bytes text.new ≡ string_bytes text.old
        ++ flat_map folded_line (map (λ line. line.now) lines.now)) }
{
    for line in lines {
        push_line(text, *line)?;
    }
    Ok(())
}

/// Appends the lines of a text, each in as many lines as it needs.
#[tactic(auto, unfolding(crate::specs::Folded::folded))]
pub(crate) fn push_folded(alloc: Global, text: &mut String, wide: &str) -> Result<(), AllocError>
    // promise: parts-of-explanations (folded)
    ensures { OnOk result (string_bytes text.new ≡ string_bytes text.old ++ folded wide.now) }
{
    let lines = lines_of(alloc, wide)?;
    push_lines(text, &lines)
}

fn ends_in_line(text: &str) -> bool
    ensures { result ≡ ends_in_line text.now }
{
    let bytes = text.as_bytes();
    !bytes.is_empty() && bytes[bytes.len() - 1] == b'\n'
}

/// Folds the lines behind the text if all of them are whole. So a long text is never kept twice.
pub(crate) fn fold_whole(
    alloc: Global,
    text: &mut String,
    lines: &mut String,
) -> Result<(), AllocError>
    ensures { OnOk result (FoldsBehind (string_bytes text.old) (string_bytes lines.old) []
        (string_bytes text.new) (string_bytes lines.new)) }
{
    if ends_in_line(lines.as_str()) {
        push_folded(alloc, text, lines.as_str())?;
        lines.clear();
    }
    Ok(())
}
