//! Laws of texts of steps: each function does nothing, and its contract is the law.

ghost use Rattle.std.specs.Prelude.{◌++◌, List, ℕ, Some, None};
ghost use Rattle.std.specs.Io.{IsEmptyOrEndsWith};
ghost use Rattle.otel_batch.specs.MachineState.{Machine};
ghost use Rattle.otel_export.specs.StoredBatches.{StoredBatches};
ghost use Rattle.otel_trace_steps.specs.StepAnswers.{AnswersLines, BeginsAnswers, GoesOn};

/// A text that is cut after a line feed does what its two parts do, one after the other, with its lines counted
/// through. After a bad line it may go on as it will.
pub fn answers_join()
    ensures joined { (first second : List ℕ) → IsEmptyOrEndsWith first 10 → GoesOn first second }
    ensures bad { (m after : Machine StoredBatches) (first second : List ℕ) (line : ℕ) (answers : List ℕ)
        → IsEmptyOrEndsWith first 10 → AnswersLines m first (Some line) answers after
        → AnswersLines m (first ++ second) (Some line) answers after }
    ensures begun { (m middle : Machine StoredBatches) (first second answers more : List ℕ)
        → IsEmptyOrEndsWith first 10 → AnswersLines m first None answers middle → BeginsAnswers middle second more
        → BeginsAnswers m (first ++ second) (answers ++ more) }
{}
