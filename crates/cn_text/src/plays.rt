//! The plays of an adversary: a choice for each, and two runs.
ghost use Rattle.std.specs.Prelude.{◌≡◌, ◌++◌, string_bytes, All, IfSome, OnOk};
ghost use Rattle.cn_text.specs.Plays.{has_step, play_end, play_runs, play_text, same_words};
ghost use Rattle.cn_text.specs.Ways.{numbered};
ghost use Rattle.cn_unread_reasons.specs.Known.{IsKnownPlay, IsKnownEnd};

use crate::ways::{push_both_runs, push_way_start};
use cn_pieces::push_pieces;
use cn_reasons::Step;
use cn_sentences::process_name;
use cn_table::Table;
use cn_unread_reasons::{Play, PlayEnd};
use std::alloc::AllocError;

/// What a process of which both runs have the same steps gets in them.
fn same_words<'a>(has_moved: bool) -> &'a str
    ensures { result.now ≡ same_words has_moved }
{
    if has_moved {
        " gets the same"
    } else {
        " has not moved"
    }
}

/// Whether the process takes a step of the run.
fn has_step(process: u8, run: &[Step]) -> bool
    ensures { result ≡ has_step process run.now }
{
    run.iter().any(|step| step.process == process)
}

/// The process that gets the same in both runs, and the state that both leave.
#[tactic(auto, unfolding(crate::specs::Plays::play_end))]
fn push_play_end(
    text: &mut String,
    table: &Table,
    end: PlayEnd,
    has_moved: bool,
) -> Result<(), AllocError>
    requires { IsKnownEnd table.now end }
    ensures { OnOk result (string_bytes text.new
        ≡ string_bytes text.old ++ play_end table.now end has_moved) }
{
    let (process, state) = (process_name(end.process), table.state_name(end.state));
    push_pieces(
        text,
        &[
            "        ",
            process,
            same_words(has_moved),
            ", and each leaves ",
            state,
            ":\n",
        ],
    )
}

/// The end and both runs of a play, or that it has none.
fn push_play_runs(text: &mut String, table: &Table, play: &Play) -> Result<(), AllocError>
    requires { IsKnownPlay table.now play.now }
    ensures { OnOk result (string_bytes text.new
        ≡ string_bytes text.old ++ play_runs table.now play.now play.now.end) }
{
    let Some(end) = play.end else {
        return text.push_str("        the adversary goes on for ever\n");
    };
    let (a_first, b_first) = (play.a_first.as_slice(), play.b_first.as_slice());
    let has_moved = has_step(end.process, a_first);
    push_play_end(text, table, end, has_moved)?;
    push_both_runs(text, table, true, play.choice.start, a_first, b_first)
}

/// A numbered choice with its play.
#[tactic(auto, unfolding(crate::specs::Plays::play_text))]
fn push_play(text: &mut String, table: &Table, number: usize, play: &Play) -> Result<(), AllocError>
    requires { IsKnownPlay table.now play.now }
    ensures { OnOk result (string_bytes text.new
        ≡ string_bytes text.old ++ play_text table.now number play.now) }
{
    push_way_start(text, table, number, &play.choice)?;
    push_play_runs(text, table, play)
}

/// The plays, numbered from 1.
pub(crate) fn push_plays(text: &mut String, table: &Table, plays: &[Play]) -> Result<(), AllocError>
    requires { All (IsKnownPlay table.now) plays.now }
    // promise: parts-of-explanations (play_text)
    ensures { OnOk result (string_bytes text.new
        ≡ string_bytes text.old ++ numbered (play_text table.now) 0 plays.now) }
{
    for (place, play) in plays.iter().enumerate() {
        push_play(text, table, place + 1, play)?;
    }
    Ok(())
}
