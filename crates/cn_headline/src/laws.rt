//! The laws. A law is a function that does nothing: its contract is the law.
ghost use Rattle.std.specs.Prelude.{◌≡◌, ◌≤◌, ◌<◌, ◌++◌, ℕ, Bool, List, Option, Some, Ok, codes, false};
ghost use Rattle.std.specs.Prelude.{option_map, string_bytes, true};
ghost use Rattle.cn_table.specs.TypeTable.{IsTypeTable, TypeTable};
ghost use Rattle.cn_app.specs.Commands.Classify.{IsClassificationOf, IsClassified};
ghost use Rattle.cn_app.specs.Commands.Classify.{IsRecoverablyClassified, classification_line};
ghost use Rattle.cn_app.specs.Commands.Classify.{line_of, line_with, line_with_both, number_words};
ghost use Rattle.cn_app.specs.Commands.Classify.{words_of};
ghost use Rattle.cn_cert.specs.Certificate.{Certificate};
ghost use Rattle.cn_cert.specs.CertificateText.{certificate_text};
ghost use Rattle.cn_json.specs.declared.numbers.Classification.{Classification};
ghost use Rattle.cn_proto.specs.Plan.{Plan};
ghost use Rattle.cn_finding.specs.Evidence.{IsFindingFor};
ghost use Rattle.cn_search.specs.Numbers.{HasNumber};
ghost use Rattle.cn_search.specs.declared.exact.ConsensusNumber.{ConsensusNumber};
ghost use Rattle.cn_finding.specs.Finding.{Finding};
ghost use Rattle.cn_recover.specs.Recording.{HasRecoverableNumber, IsRecoverableNumberUpTo};
ghost use Rattle.cn_solvable.specs.Solving.{IsConsensusNumber, SolvesConsensus};
ghost use Rattle.cn_crashes.specs.RecoverableConsensusNumber.{IsRecoverableConsensusNumber};
ghost use Rattle.cn_crashes.specs.RecoverableConsensusNumber.{SolvesRecoverableConsensus};
ghost use Rattle.cn_lives.specs.Plans.{RecordingPlan};
ghost use Rattle.cn_lives.specs.declared.schedule.Event.{Event};
ghost use Rattle.cn_life_laws.specs.Consensus.{IsRecoverableConsensus};
ghost use Rattle.cn_app.specs.Commands.Find.{IsFound, IsFoundCertificate};
ghost use Rattle.cn_app.specs.Commands.Lives.{GivesLivesPlan, IsLived, IsLivesReport};
ghost use Rattle.cn_io.specs.Texts.Plans.{IsPlanOf};
ghost use Rattle.cn_io.specs.Texts.Contents.{object_in, certificate_in, table_in};
ghost use Rattle.cn_io.specs.Streams.Reading.{ReadsKnownBytes};
ghost use Rattle.cn_io.specs.declared.report.Report.{Report};
ghost use Rattle.cn_app.specs.declared.reports.lives.AskedLives.{AskedLives};
ghost use Rattle.cn_unread_number.specs.BoundsText.{bounds_text};
ghost use Rattle.cn_unread_number.specs.declared.bounds.NumberBounds.{NumberBounds};
ghost use Rattle.cn_unread_laws.specs.Bounds.{AreBoundsOf, AreSmall};
ghost use Rattle.cn_headline.specs.ConsensusNumber.{IsNumberText, TellsConsensus, TellsNumber};
ghost use Rattle.cn_headline.specs.ConsensusNumber.{TellsRecoverable, WordsTell};
ghost use Rattle.cn_headline.specs.Headline.{Headline};

use cn_agree::laws::plans_reach_consensus;
use cn_app::Source;
use cn_choice::laws::{DiscerningType, greatest_is_unique, live_list};
use cn_crashes::laws::{number_is_the_recoverable_consensus_number, recording_is_enough};
use cn_finding::laws::{number_of_finding, one_finding};
use cn_life_laws::laws::lives_reach_consensus;
use cn_log::laws::event_lists_are_linearized;
use cn_proto::laws::{plan_protocols_are_sound, unique_plan};
use cn_recover::laws::RecordingType;
use cn_solvable::laws::{number_is_the_consensus_number, witness_is_enough};
use cn_table::laws::{spelled_tables, tables_are_closed};
use cn_unread_laws::laws::{bounds_are_told, found_bounds_hold};
use std::io::Read;

/// `find` writes one text for a table and a limit.
pub fn one_found()
    // promise: certificate-by-find
    ensures { (t : TypeTable) (limit : ℕ) (x y : List ℕ) → IsFound t limit x → IsFound t limit y
        → x ≡ y }
{
    one_finding();
}

/// `why` explains the certificate that `find` writes.
pub fn why_explains_what_is_found()
    // promise: why-with-a-limit
    ensures { (t : TypeTable) (limit : ℕ) (text : List ℕ) (c : Certificate) → IsFound t limit text
        → IsFoundCertificate t limit c → text ≡ certificate_text c ++ codes "\n" }
{
    one_finding();
}

/// As text, `classify` writes the numbers that it tells of a table as the line of the laws below.
pub fn lines_tell_classifications()
    // promise: line-by-classify (IsClassified: AreNumberWords, number_text, number_words)
    ensures number { (t : TypeTable) (limit : Option ℕ) (c : Classification)
        → IsClassificationOf t limit false false c
        → IsClassified t limit (classification_line c) }
    // promise: recoverable-line-by-classify (IsRecoverablyClassified)
    ensures both { (t : TypeTable) (limit : Option ℕ) (c : Classification)
        → IsClassificationOf t limit true false c
        → IsRecoverablyClassified t limit (classification_line c) }
{}

/// `classify` writes one line for a table and a limit. If `find` accepts these, the line has the
/// number that it finds.
pub fn one_classified()
    // promise: one-line-of-a-table
    ensures one { (t : TypeTable) (limit : ℕ) (x y : List ℕ) → IsClassified t (Some limit) x
        → IsClassified t (Some limit) y → x ≡ y }
    // promise: one-line-of-a-table
    ensures as_found { (t : TypeTable) (limit : ℕ) (line : List ℕ) (f : Finding)
        → IsClassified t (Some limit) line → IsFindingFor t limit f
        → line ≡ line_with t.name (number_words limit f.number) }
{
    greatest_is_unique::<DiscerningType>();
    number_of_finding();
}

/// `classify` with the recoverable numbers writes one line for a table and a limit.
pub fn one_recoverably_classified()
    // promise: one-line-of-a-table
    ensures { (t : TypeTable) (limit : ℕ) (x y : List ℕ)
        → IsRecoverablyClassified t (Some limit) x
        → IsRecoverablyClassified t (Some limit) y → x ≡ y }
{
    greatest_is_unique::<DiscerningType>();
    greatest_is_unique::<RecordingType>();
}

/// A table and a certificate have at most one plan. `show` writes it, and `agree` runs it.
pub fn one_plan_of()
    // promise: plan-by-show
    ensures { (t : TypeTable) (c : Certificate) (p q : Plan) → IsPlanOf t c p → IsPlanOf t c q
        → p ≡ q }
{
    unique_plan();
}

/// What `agree --recoverable` writes is that of a run by a plan of the table, and the run is
/// recoverable consensus.
pub fn lives_by_agree_reach_consensus()
    // promise: lives-by-agree (IsLived, IsRecoverableConsensus)
    ensures { (t : TypeTable) (inputs : List ℕ) (schedule : List Event) (asked : AskedLives)
        (report : Report) → IsLivesReport t inputs schedule asked (Ok report)
        → (p : RecordingPlan) × GivesLivesPlan t asked.processes (Ok p)
        × IsLived p inputs schedule asked.steps asked.form (string_bytes report.text)
        × IsRecoverableConsensus p inputs schedule }
{
    lives_reach_consensus();
}

/// If the bytes of a reader are known, the result of reading is that of all these bytes, unless the
/// reader fails or memory runs out.
pub fn known_bytes<R: Read>()
    ensures table { ReadsKnownBytes Source.Table table_in R.remaining }
    ensures certificate { ReadsKnownBytes Source.Certificate certificate_in R.remaining }
    ensures object { ReadsKnownBytes Source.Object object_in R.remaining }
{}

/// For each type table and limit, the number found is the greatest n from 2 to the limit for which
/// the type is n-discerning, or none is; in every schedule of the protocol built from it, with
/// processes stopping anywhere, every process decides within 4(n-1) own steps, all on one
/// participant's input, and universal-object replies are those of one sequential run in log order.
///
/// What is found is what [`find`](cn_search::find) answers. The protocol built from it is each plan
/// that [`Plan::from_witness`](cn_proto::Plan::from_witness) makes of the table and of the witness
/// found, where a number was found. A schedule is a list that
/// [`run_schedule`](cn_agree::run_schedule) runs, from one input for each process. The replies are
/// those of [`replay`](cn_log::replay), for every object, start state, capacity and event list.
pub fn headline<V>()
    ensures { (t : TypeTable) (limit : ℕ) (f : Finding) → IsFindingFor t limit f
        → Headline V t limit f }
{
    live_list();
    plan_protocols_are_sound();
    plans_reach_consensus::<V>();
    event_lists_are_linearized();
}

/// The number is the consensus number. `L` are the local states of the processes of any protocol,
/// and `V` is what its registers hold.
///
/// - `finding`: if `find` answers a number below the limit, objects of the type solve consensus for
///   so many processes, by some protocol, and for no more, by any. If it answers none, that number
///   is 1. At the limit, so many processes solve consensus.
/// - `number`: if [`consensus_number`](cn_search::consensus_number) answers a finite number, it is
///   the consensus number of the type. If it answers that it is infinite, objects of the type solve
///   consensus for any number of processes.
/// - `line`: the line that `classify` writes tells the same of the type that the bytes spell. `N`
///   is its consensus number. With `at least N` objects of the type solve consensus for N
///   processes, and with `infinite` for any number.
///
/// Source: Ruppert, Determining consensus numbers, 2000.
pub fn consensus_number<L, V>()
    // promise: numbers-tell-consensus (TellsConsensus)
    ensures finding { (t : TypeTable) (limit : ℕ) (f : Finding) → IsTypeTable t → 2 ≤ limit
        → IsFindingFor t limit f → TellsConsensus L V t limit f.number }
    // promise: numbers-tell-consensus (TellsNumber)
    ensures number { (t : TypeTable) (number : ConsensusNumber) → IsTypeTable t
        → HasNumber t number
        → TellsNumber (IsConsensusNumber L V t) (SolvesConsensus t) number }
    // promise: lines-tell-consensus (WordsTell: exact, at_least, infinite)
    ensures line { (bytes : List ℕ) (t : TypeTable) (limit : Option ℕ) (line words : List ℕ)
        → table_in bytes ≡ Ok t → IsClassified t limit line → line ≡ line_with t.name words
        → WordsTell (IsConsensusNumber L V t) (SolvesConsensus t) words }
{
    tables_are_closed();
    spelled_tables();
    witness_is_enough();
    number_is_the_consensus_number::<L, V>();
}

/// What `classify` tells of the number without reads holds of all protocols that never read an
/// object. `L` and `V` are as in [`consensus_number`].
///
/// - `told`: the bounds that it tells of the type that the bytes spell do;
/// - `line`: so do those whose text its line has. The numbers are below 2^64.
pub fn number_without_reads<L, V>()
    // promise: lines-tell-numbers-without-reads (IsClassificationOf, AreBoundsOf)
    ensures told { (bytes : List ℕ) (t : TypeTable) (limit : Option ℕ) (is_asked : Bool)
        (c : Classification) (bounds : NumberBounds) → table_in bytes ≡ Ok t
        → IsClassificationOf t limit is_asked true c → c.without_read ≡ Some bounds
        → AreBoundsOf L V t bounds }
    // promise: lines-tell-numbers-without-reads (classification_line, AreSmall)
    ensures line { (bytes : List ℕ) (t : TypeTable) (limit : Option ℕ) (is_asked : Bool)
        (c : Classification) (found bounds : NumberBounds) → table_in bytes ≡ Ok t
        → IsClassificationOf t limit is_asked true c → c.without_read ≡ Some found
        → AreSmall found → AreSmall bounds
        → classification_line c ≡ line_of t.name (words_of c.number)
        (option_map words_of c.recoverable) (Some (bounds_text bounds))
        → AreBoundsOf L V t bounds }
{
    spelled_tables();
    found_bounds_hold::<L, V>();
    bounds_are_told::<L, V>();
}

/// The recoverable number is the consensus number of processes that crash and come back.
///
/// - `up_to`: the same as clause `finding` of [`consensus_number`], for the recoverable number up
///   to a limit.
/// - `number`: the same as its clause `number`.
/// - `line`: the line that `classify --recoverable` writes has two numbers in words. The first ones
///   tell of consensus what those of [`consensus_number`] tell, and the second ones tell the same
///   of recoverable consensus.
pub fn recoverable_consensus_number<L, V>()
    // promise: numbers-tell-recoverable-consensus (TellsRecoverable)
    ensures up_to { (t : TypeTable) (limit : ℕ) (number : Option ℕ) → IsTypeTable t → 2 ≤ limit
        → IsRecoverableNumberUpTo t limit number → TellsRecoverable L V t limit number }
    // promise: numbers-tell-recoverable-consensus (TellsNumber)
    ensures number { (t : TypeTable) (number : ConsensusNumber) → IsTypeTable t
        → HasRecoverableNumber t number
        → TellsNumber (IsRecoverableConsensusNumber L V t) (SolvesRecoverableConsensus t) number }
    // promise: numbers-tell-recoverable-consensus (IsNumberText, WordsTell)
    ensures line { (bytes : List ℕ) (t : TypeTable) (limit : Option ℕ)
        (line words recoverable : List ℕ)
        → table_in bytes ≡ Ok t → IsRecoverablyClassified t limit line → IsNumberText words
        → line ≡ line_with_both t.name words recoverable
        → WordsTell (IsConsensusNumber L V t) (SolvesConsensus t) words
        × WordsTell (IsRecoverableConsensusNumber L V t) (SolvesRecoverableConsensus t) recoverable }
{
    tables_are_closed();
    spelled_tables();
    witness_is_enough();
    number_is_the_consensus_number::<L, V>();
    recording_is_enough();
    number_is_the_recoverable_consensus_number::<L, V>();
}
