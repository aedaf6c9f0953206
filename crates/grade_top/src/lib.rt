//! The grader: from the words of a command line to what it writes and the status that it ends with.
#![tactic(auto)]

ghost use Rattle.std.specs.Prelude.{◌≡◌, ℕ, List, [], ◌∷◌, map};
ghost use Rattle.std.specs.String.{string_bytes};
ghost use Rattle.grade_io.specs.Devices.{Rose, devices};
ghost use Rattle.mpy_tree.specs.declared.outcome.Outcome.{Outcome as RunOutcome};
ghost use Rattle.mpy_tree.specs.declared.refusal.Refusal.{Refusal};
ghost use Rattle.mpy_tree.specs.declared.refusal.Source.TheVariants as source;
ghost use Rattle.mpy_tree.specs.Refusals.{refusal_text};
ghost use Rattle.input_space.specs.Tasks.{HasWanted, Task};
ghost use Rattle.source_files.specs.Texts.{Tells};
ghost use Rattle.file_commands.specs.Calls.{CallsInOrder};
ghost use Rattle.file_commands.specs.Claims.{AreTold, IsSaid, NoFault};
ghost use Rattle.file_commands.specs.Ends.{Ends, IsFirstRefusal};
ghost use Rattle.check_core.specs.Claims.{IsChecked};
ghost use Rattle.check_core.specs.Decisions.{cert_in, sources_step};
ghost use Rattle.check_core.specs.Words.{CheckWords};
ghost use Rattle.formula_commands.specs.Claims.{IsJudged, IsSolved, PrintsModel, StoresProof};
ghost use Rattle.formula_commands.specs.Claims.{StoresSteps, TellsProved};
ghost use Rattle.formula_commands.specs.Words.{SatWords, UnsatWords};
ghost use Rattle.grade_core.specs.Claims.{IsGraded, IsRefusedOrSpent};
ghost use Rattle.grade_core.specs.Commands.{empty_reference};
ghost use Rattle.grade_core.specs.Decisions.{task_step};
ghost use Rattle.grade_core.specs.Words.{GradeWords};
ghost use Rattle.grade_top.specs.Claims.{IsUsage};
ghost use Rattle.grade_top.specs.Commands.{file_command, files_of, line_of, sample_word};
ghost use Rattle.grade_top.specs.Decisions.{run_step, sample_texts};
ghost use Rattle.grade_top.specs.PrintedPrograms.{PrintsCorrection};
ghost use Rattle.grade_top.specs.Reports.{run_text};
ghost use Rattle.grade_top.specs.Words.{Asks, Check, Command, Grade, Nothing, Run, RunWords};
ghost use Rattle.grade_top.specs.Words.{All, Pick, Sample, Sat, Unsat};
ghost use Rattle.list_command.specs.Claims.{HasMany, IsListedFor, IsManyOrSpent, PrintsBest};
ghost use Rattle.list_command.specs.Words.{AllWords};
ghost use Rattle.pick_command.specs.Claims.{IsAnswered, TellsPick};
ghost use Rattle.pick_command.specs.Decisions.{Request, pick_step};
ghost use Rattle.pick_command.specs.Words.{PickWords};

mod command;
mod laws;
mod report;
mod run;
mod sample;
mod typed;
mod values;
mod words;

use cert_text::one_cert;
use certificate_judge::right_is_accepted;
pub use grade_io::{Status, status_number};
use grade_io::{Shelf, Sink};
pub use laws::{corrections_are_spelled, not_refused_and_decided, one_refusal, one_run, one_task};
use std::alloc::Global;

/// Answers the words that follow the program's name.
///
/// The files of a command are fetched in order and read, and what they decide is written: by
/// `grade` the cheapest correction of a submission, behind a certificate of it that is stored
/// under the word `CERT`; by `check` what is said of a certificate, whatever wrote it; by `run`
/// what a program gives on values; by `all` every cheapest correction; by `pick` few inputs that
/// show the faults of submissions; by `sat` values that satisfy a formula, or that none do, behind
/// a proof of it that is stored under the word `LOG`; by `unsat` what is said of a proof, whatever
/// wrote it. By `sample` a task is made from a number and graded, and how large it is and what its
/// correction costs is written.
pub fn grade_top<S: Shelf, K: Sink>(
    alloc: Global,
    words: &Vec<String>,
    shelf: &mut S,
    out: &mut K,
) -> Status
    // What the status means, and what stands in the output and in the files.
    ensures ends { (c : Command) → Asks (map string_bytes words.now.items) c
        → Ends (file_command c) (devices (S.seen shelf.old) (K.seen out.old))
        (devices (S.seen shelf.new) (K.seen out.new)) result }
    // The calls of the command's words, in order, each once, up to some point.
    ensures calls { (c : Command) → Asks (map string_bytes words.now.items) c
        → CallsInOrder (file_command c) (S.seen shelf.old) (S.seen shelf.new) }
    // The usage is answered exactly for words that ask for nothing.
    ensures usage { result ≡ Status.Usage → Asks (map string_bytes words.now.items) Nothing }
    ensures no_form { Asks (map string_bytes words.now.items) Nothing → IsUsage result }
    // A read is said to have failed only where the shelf counted a fault.
    ensures read_failed { result ≡ Status.ReadFailed
        → Rose (S.seen shelf.old).faults (S.seen shelf.new).faults }
    // A task that nothing refuses is graded, unless a device failed or memory lacked.
    ensures graded { (g : GradeWords) (ts : List (List ℕ)) (k : Task)
        → Asks (map string_bytes words.now.items) (Grade g)
        → AreTold (devices (S.seen shelf.old) (K.seen out.old)) (files_of (Grade g)) ts
        → (task_step ts).gives k
        → NoFault (devices (S.seen shelf.old) (K.seen out.old))
        (devices (S.seen shelf.new) (K.seen out.new))
        → IsGraded k result }
    // Where a correction is answered, it was written, and the text behind its line `program`
    // spells the corrected program and no other, lines aside.
    ensures printed { (g : GradeWords) → Asks (map string_bytes words.now.items) (Grade g)
        → result ≡ Status.Corrected
        → PrintsCorrection g (devices (S.seen shelf.old) (K.seen out.old))
        (devices (S.seen shelf.new) (K.seen out.new)) }
    // A sample that nothing refuses is graded, unless a device failed or memory lacked.
    ensures sampled { (n : ℕ) (k : Task)
        → Asks (map string_bytes words.now.items) (Sample n)
        → (task_step (sample_texts n)).gives k
        → NoFault (devices (S.seen shelf.old) (K.seen out.old))
        (devices (S.seen shelf.new) (K.seen out.new))
        → IsGraded k result }
    // Where the reference of such a task or sample gives no value on any input, that is refused,
    // or the budget is spent, unless a device failed or memory lacked.
    ensures empty { (g : GradeWords) (ts : List (List ℕ)) (k : Task)
        → Asks (map string_bytes words.now.items) (Grade g)
        → AreTold (devices (S.seen shelf.old) (K.seen out.old)) (files_of (Grade g)) ts
        → (task_step ts).gives k → (HasWanted k → ⊥)
        → NoFault (devices (S.seen shelf.old) (K.seen out.old))
        (devices (S.seen shelf.new) (K.seen out.new))
        → IsRefusedOrSpent (refusal_text g.reference (empty_reference k))
        (K.seen out.old) (K.seen out.new) result }
    ensures empty_sample { (n : ℕ) (k : Task)
        → Asks (map string_bytes words.now.items) (Sample n)
        → (task_step (sample_texts n)).gives k → (HasWanted k → ⊥)
        → NoFault (devices (S.seen shelf.old) (K.seen out.old))
        (devices (S.seen shelf.new) (K.seen out.new))
        → IsRefusedOrSpent (refusal_text (sample_word source.Reference) (empty_reference k))
        (K.seen out.old) (K.seen out.new) result }
    // For a task that nothing refuses a certificate is accepted or rejected, unless a device failed
    // or memory lacked; and where it is accepted, what it claims is true.
    ensures checked { (w : CheckWords) (ts : List (List ℕ)) (k : Task)
        → Asks (map string_bytes words.now.items) (Check w)
        → AreTold (devices (S.seen shelf.old) (K.seen out.old)) (files_of (Check w)) ts
        → (sources_step ts).gives k
        → NoFault (devices (S.seen shelf.old) (K.seen out.old))
        (devices (S.seen shelf.new) (K.seen out.new))
        → IsChecked k (cert_in ts) result }
    // A run that nothing refuses is told, unless a device failed or memory lacked.
    ensures ran { (w : RunWords) (ts : List (List ℕ)) (o : RunOutcome)
        → Asks (map string_bytes words.now.items) (Run w)
        → AreTold (devices (S.seen shelf.old) (K.seen out.old)) (files_of (Run w)) ts
        → (run_step w ts).gives o
        → NoFault (devices (S.seen shelf.old) (K.seen out.old))
        (devices (S.seen shelf.new) (K.seen out.new))
        → IsSaid (run_text o) Status.Correct (K.seen out.old) (K.seen out.new) result }
    // Where `all` ends with Correct or Corrected, the first of the best list were written.
    ensures all_correct { (w : AllWords) → Asks (map string_bytes words.now.items) (All w)
        → result ≡ Status.Correct
        → PrintsBest w (devices (S.seen shelf.old) (K.seen out.old))
        (devices (S.seen shelf.new) (K.seen out.new)) }
    ensures all_corrected { (w : AllWords) → Asks (map string_bytes words.now.items) (All w)
        → result ≡ Status.Corrected
        → PrintsBest w (devices (S.seen shelf.old) (K.seen out.old))
        (devices (S.seen shelf.new) (K.seen out.new)) }
    // A task that nothing refuses is listed, unless a device failed or memory lacked; and where too
    // many selections have its least cost, that is answered, or the budget is spent.
    ensures listed { (w : AllWords) (ts : List (List ℕ)) (k : Task)
        → Asks (map string_bytes words.now.items) (All w)
        → AreTold (devices (S.seen shelf.old) (K.seen out.old)) (files_of (All w)) ts
        → (task_step ts).gives k
        → NoFault (devices (S.seen shelf.old) (K.seen out.old))
        (devices (S.seen shelf.new) (K.seen out.new))
        → IsListedFor k result }
    ensures many { (w : AllWords) (ts : List (List ℕ)) (k : Task)
        → Asks (map string_bytes words.now.items) (All w)
        → AreTold (devices (S.seen shelf.old) (K.seen out.old)) (files_of (All w)) ts
        → (task_step ts).gives k → HasMany k
        → NoFault (devices (S.seen shelf.old) (K.seen out.old))
        (devices (S.seen shelf.new) (K.seen out.new))
        → IsManyOrSpent w k (K.seen out.old) (K.seen out.new) result }
    ensures empty_list { (w : AllWords) (ts : List (List ℕ)) (k : Task)
        → Asks (map string_bytes words.now.items) (All w)
        → AreTold (devices (S.seen shelf.old) (K.seen out.old)) (files_of (All w)) ts
        → (task_step ts).gives k → (HasWanted k → ⊥)
        → NoFault (devices (S.seen shelf.old) (K.seen out.old))
        (devices (S.seen shelf.new) (K.seen out.new))
        → IsRefusedOrSpent (refusal_text w.reference (empty_reference k))
        (K.seen out.old) (K.seen out.new) result }
    // Where `pick` ends with Correct, the cases and marks were written that its programs choose.
    ensures picked { (w : PickWords) → Asks (map string_bytes words.now.items) (Pick w)
        → result ≡ Status.Correct
        → TellsPick w (devices (S.seen shelf.old) (K.seen out.old))
        (devices (S.seen shelf.new) (K.seen out.new)) }
    // Programs that nothing refuses are compared, unless a device failed or memory lacked.
    ensures compared { (w : PickWords) (ts : List (List ℕ)) (k : Request)
        → Asks (map string_bytes words.now.items) (Pick w)
        → AreTold (devices (S.seen shelf.old) (K.seen out.old)) (files_of (Pick w)) ts
        → (pick_step ts).gives k
        → NoFault (devices (S.seen shelf.old) (K.seen out.old))
        (devices (S.seen shelf.new) (K.seen out.new))
        → IsAnswered result }
    // Values that `sat` writes make each clause of the file true.
    ensures satisfiable { (w : SatWords) → Asks (map string_bytes words.now.items) (Sat w)
        → result ≡ Status.Correct
        → PrintsModel w (devices (S.seen shelf.old) (K.seen out.old))
        (devices (S.seen shelf.new) (K.seen out.new)) }
    // Where it says that none do, none do, and the proof that it stored follows and refutes.
    ensures unsatisfiable { (w : SatWords) → Asks (map string_bytes words.now.items) (Sat w)
        → result ≡ Status.NoCorrection
        → StoresProof w (devices (S.seen shelf.old) (K.seen out.old))
        (devices (S.seen shelf.new) (K.seen out.new)) }
    // It spends its budget on steps that follow, none of them the empty clause, and stores them.
    ensures unsolved { (w : SatWords) → Asks (map string_bytes words.now.items) (Sat w)
        → result ≡ Status.Spent
        → StoresSteps w (devices (S.seen shelf.old) (K.seen out.old))
        (devices (S.seen shelf.new) (K.seen out.new)) }
    // A text of the form is solved, unless the budget is spent, a device failed or memory lacked;
    // and any other text is refused.
    ensures solved { (w : SatWords) (cnf : List ℕ)
        → Asks (map string_bytes words.now.items) (Sat w)
        → AreTold (devices (S.seen shelf.old) (K.seen out.old)) (files_of (Sat w)) (cnf ∷ [])
        → NoFault (devices (S.seen shelf.old) (K.seen out.old))
        (devices (S.seen shelf.new) (K.seen out.new))
        → IsSolved w.budget cnf result }
    // Where `unsat` says that no values satisfy the formula, none do, for any bytes of the proof.
    ensures proved { (w : UnsatWords) → Asks (map string_bytes words.now.items) (Unsat w)
        → result ≡ Status.Correct
        → TellsProved w (devices (S.seen shelf.old) (K.seen out.old))
        (devices (S.seen shelf.new) (K.seen out.new)) }
    // Texts of their forms are judged, unless a device failed or memory lacked; and any other text
    // is refused.
    ensures judged { (w : UnsatWords) (cnf proof : List ℕ)
        → Asks (map string_bytes words.now.items) (Unsat w)
        → AreTold (devices (S.seen shelf.old) (K.seen out.old)) (files_of (Unsat w))
        (cnf ∷ proof ∷ [])
        → NoFault (devices (S.seen shelf.old) (K.seen out.old))
        (devices (S.seen shelf.new) (K.seen out.new))
        → IsJudged cnf proof result }
    // Where a refusal is the first, it is answered and its line written, unless a device failed or
    // memory lacked; by `ends` a refusal is answered for texts for which it is the first alone.
    ensures refused { (c : Command) (ts : List (List ℕ)) (r : Refusal)
        → Asks (map string_bytes words.now.items) c
        → Tells (S.seen shelf.old) (files_of c) ts → IsFirstRefusal (file_command c) ts r
        → NoFault (devices (S.seen shelf.old) (K.seen out.old))
        (devices (S.seen shelf.new) (K.seen out.new))
        → IsSaid (line_of c r) Status.Refused (K.seen out.old) (K.seen out.new) result }
{
    corrections_are_spelled();
    right_is_accepted();
    one_cert();
    match words::read_words(words) {
        Some(command) => command::answer(alloc, &command, shelf, out),
        None => command::usage(out),
    }
}
